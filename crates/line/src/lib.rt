// Whole lines, for any number of devices, field after field: what has no room is cut off. None of these has a `requires`.
#![tactic(auto)]

ghost use Rattle.std.specs.Prelude.{◌∷◌};
ghost use Rattle.laws.specs.Lists.{tabulate};
ghost use Rattle.text_rules.specs.Decimal.{decimal};
ghost use Rattle.text.specs.Lays.{Lays};
ghost use Rattle.listing_rules.specs.Text.{spaced, line_text, header_text};

use fields::{letter, places, short, supervisor};
use rules::{Down, Yard};
use text::Pen;

// The titles d1 to dn, each with a space before it.
fn titles(n: u16, pen: &mut Pen<'_>)
    ensures { Lays pen.old (spaced (tabulate (λ i. 100 ∷ decimal i) n)) pen.new }
{
    for k in 0..usize::from(n) {
        short(b'd', pen);
        pen.number(k + 1);
    }
}

pub fn header_line(n: u16, pen: &mut Pen<'_>)
    ensures { Lays pen.old (header_text n) pen.new }
{
    pen.word(b"tick sup");
    titles(n, pen);
    pen.word(b" down\n");
}

// The line of a tick: the yard at its end, and the letter that was sent in it.
pub fn line(tick: usize, n: u16, y: Yard, down: Option<Down>, lost: bool, pen: &mut Pen<'_>)
    ensures { Lays pen.old (line_text tick n y down lost) pen.new }
{
    pen.number(tick);
    supervisor(y.base, pen);
    places(n, y.devices, pen);
    letter(down, lost, pen);
    pen.byte(b'\n');
}
