// A plan's times as a row of plain numbers, six for each device: the time that its clock runs to, by the number of its
// place. A row can be lent, and one look at it says when a device is due. No function here has a `requires`.
#![tactic(auto)]

ghost use Rattle.std.specs.Prelude.{◌≡◌};
ghost use Rattle.times.specs.Times.{row_of};

use rules::Slot;

// The row of all eight slots.
// Stays: one flat row, as the definition `row_of` is: a look at it is one index.
#[tactic(auto, using(crate::proofs::Rows::begun, crate::proofs::Rows::slot_written, crate::proofs::Rows::ended))]
pub fn row_of(q: u16, slots: [Slot; 8]) -> [u16; 48]
    ensures { result ≡ row_of q slots }
{
    let mut row = [0u16; 48];
    for (k, s) in slots.iter().enumerate() {
        let at = 6 * k;
        row[at] = s.F;
        row[at + 1] = q;
        row[at + 2] = s.E;
        row[at + 3] = s.R;
        row[at + 4] = s.X;
        row[at + 5] = s.X;
    }
    row
}
