// A device's part of a plan file's body: its six times in twelve bytes, read and written. It takes any bytes and any buffer; no
// function here has a `requires`.
#![tactic(auto)]

ghost use Rattle.std.specs.Prelude.{◌≡◌};
ghost use Rattle.laws.specs.Written.{Written};
ghost use Rattle.planfile_rules.specs.File.{slot_in};
ghost use Rattle.planfile_rules.specs.Writing.{slot_bytes};

use numbers::read::two_at;
use numbers::write::put_two;
use rules::Slot;

pub const SLOT_SIZE: usize = 12;

// A device's six times, from its twelve bytes.
#[tactic(auto, unfolding(planfile_rules::specs::File::slot_in))]
pub fn slot_in(twelve: &[u8]) -> Slot
    ensures { result ≡ slot_in twelve.now 0 }
{
    Slot {
        F: two_at(twelve, 0),
        E: two_at(twelve, 2),
        R: two_at(twelve, 4),
        X: two_at(twelve, 6),
        G: two_at(twelve, 8),
        S: two_at(twelve, 10),
    }
}

// A device's six times, into its twelve bytes.
pub fn put_slot(s: Slot, twelve: &mut [u8])
    ensures { Written twelve.old 0 (slot_bytes s) twelve.new 12 }
{
    put_two(s.F, twelve, 0);
    put_two(s.E, twelve, 2);
    put_two(s.R, twelve, 4);
    put_two(s.X, twelve, 6);
    put_two(s.G, twelve, 8);
    put_two(s.S, twelve, 10);
}
