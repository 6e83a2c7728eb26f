// The plan check: document 01's table of refusals. It takes any plan; no public function here has a `requires`.
//
// Every index is looked at once: 0 for the yard, 1 to N for the devices, above N for the unused slots. At each, the lines
// that are asked there are tried in the table's order. The verdict is the lowest line found, at the first index that has it.
#![tactic(auto)]

ghost use Rattle.std.specs.Prelude.{◌≡◌, ◌<◌};
ghost use Rattle.rules.specs.Table.{plan_verdict};
ghost use Rattle.plan.specs.Places.{place_after, lower};

use conditions::Yardstick;
use lease::lease_length;
use rules::{Plan, Refusal, Verdict};

// The place of the slot after the one at place k; the last has none, and stands for itself.
fn place_after(k: usize) -> usize
    ensures same { result ≡ place_after k }
    ensures inside { result < 8 }
{
    k.min(6) + 1
}

// Whether a line that was found stands before the one that was found before it; none stands behind all.
fn lower(found: Option<u8>, line: Option<u8>) -> bool
    ensures { result ≡ lower found line }
{
    found.is_some_and(|a| line.is_none_or(|b| a < b))
}

// The verdict on a plan: accepted, or the first line of the table that it breaks, with that line's lowest index.
pub fn check(p: Plan) -> Verdict
    ensures { result ≡ plan_verdict p }
{
    let slots = p.slots;
    let yardstick = Yardstick {
        n: p.N,
        w: p.W,
        ls: lease_length(p),
    };
    // Stays: line and index apart until the end: an `Option<Refusal>` kept through the loop more than doubled a check's time.
    let mut line = yardstick.yard_line(p.B, p.Q);
    let mut at: usize = 0;
    for (k, s) in slots.iter().enumerate() {
        let next = slots[place_after(k)];
        let found = yardstick.slot_line(k as u8, *s, next);
        if lower(found, line) {
            line = found;
            at = k + 1;
        }
    }
    match line {
        None => Ok(()),
        Some(number) => Err(Refusal { number, index: at }),
    }
}
