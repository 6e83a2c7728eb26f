// How long a stay is, and with it the lease: LS. No function here has a `requires`.
#![tactic(auto)]

ghost use Rattle.std.specs.Prelude.{◌≡◌, ◌<◌};
ghost use Rattle.rules.specs.Plan.{stay_of, LS};

use rules::{Plan, Slot};

// E + R + X of a slot. That it is far below what the type holds is said again: callers add to it.
pub fn stay(s: Slot) -> u32
    ensures { (result ≡ stay_of s) × (result < 196608) }
{
    u32::from(s.E) + u32::from(s.R) + u32::from(s.X)
}

// LS, the stay of device 1.
#[tactic(auto, unfolding(rules::specs::Plan::slot))]
pub fn lease_length(p: Plan) -> u32
    ensures { result ≡ LS p }
{
    stay(p.slots[0])
}
