// Whether a state is well formed (refusal 11). It takes any plan and any state; no public function here has a `requires`.
#![tactic(auto)]

ghost use Rattle.std.specs.Prelude.{◌≡◌};
ghost use Rattle.rules.specs.Plan.{slot, is_device, is_participant};
ghost use Rattle.rules.specs.Yard.{index_formed, clock_formed, lease_formed, place_formed, letter_formed, is_fresh, device_formed, base_formed, well_formed};

use lease::lease_length;
use rules::{Base, Device, Letter, Place, Plan, Slot, Yard};

#[tactic(auto, using(laws::proofs::Tests::all_is), unfolding(rules::specs::Plan::is_device))]
fn is_device(p: Plan, i: u8) -> bool
    ensures { result ≡ is_device p i }
{
    (1 <= i) && (u16::from(i) <= p.N)
}

#[tactic(auto, using(laws::proofs::Tests::all_is), unfolding(rules::specs::Plan::is_pair))]
fn is_participant(p: Plan, i: u8) -> bool
    ensures { result ≡ is_participant p i }
{
    (1 <= i) && (u16::from(i) < p.N)
}

#[tactic(auto, unfolding(rules::specs::Yard::index_formed))]
fn index_formed(p: Plan, base: Base) -> bool
    ensures { result ≡ index_formed p base }
{
    match base {
        Base::FallBack => true,
        Base::Lease(i) | Base::Cancel(i) | Base::Abort(i) => is_device(p, i),
    }
}

#[tactic(auto, unfolding(rules::specs::Yard::clock_formed))]
fn clock_formed(p: Plan, y: Yard) -> bool
    ensures { result ≡ clock_formed p y.base y.clock }
{
    match y.base {
        Base::FallBack => y.clock <= p.B,
        Base::Lease(i) if u16::from(i) < p.N => y.clock < p.W,
        _ => y.clock == 0,
    }
}

#[tactic(auto, unfolding(rules::specs::Yard::lease_formed))]
fn lease_formed(p: Plan, y: Yard) -> bool
    ensures { result ≡ lease_formed p y.base y.lease }
{
    match y.base {
        Base::FallBack => y.lease == 0,
        _ => y.lease < lease_length(p),
    }
}

#[tactic(auto, using(laws::proofs::Tests::all_is), unfolding(rules::specs::Yard::base_formed))]
fn base_formed(p: Plan, y: Yard) -> bool
    ensures { result ≡ base_formed p y.base y.clock y.lease }
{
    index_formed(p, y.base) && clock_formed(p, y) && lease_formed(p, y)
}

// The place and the clock of device i; its slot is s.
// Stays: plan, device's number and slot side by side: the definitions take the number, and the slot is looked up once.
#[tactic(auto, using(laws::proofs::Tests::all_is), unfolding(rules::specs::Yard::place_formed))]
fn place_formed(p: Plan, i: u8, s: Slot, d: Device) -> bool
    ensures { s ≡ slot p i → result ≡ place_formed p i d.place d.clock }
{
    match d.place {
        Place::FallBack => d.clock <= s.F,
        Place::Requesting => (u16::from(i) == p.N) && (d.clock < p.Q),
        Place::Entering => d.clock < s.E,
        Place::Running => d.clock < s.R,
        Place::Exiting1 | Place::Exiting2 => d.clock < s.X,
    }
}

#[tactic(auto, using(laws::proofs::Tests::all_is, crate::proofs::Same::same_is), unfolding(rules::specs::Yard::letter_formed))]
fn letter_formed(p: Plan, i: u8, d: Device) -> bool
    ensures { result ≡ letter_formed p i d.letter d.place d.clock }
{
    match d.letter {
        None => true,
        Some(Letter::Approve) => is_participant(p, i)
            && (d.place == Place::Entering)
            && (d.clock == 0),
        Some(Letter::Deny) => is_participant(p, i)
            && (d.place == Place::FallBack)
            && (d.clock == 0),
        Some(Letter::Request | Letter::Cancel | Letter::Exit) => false,
    }
}

#[tactic(auto, using(laws::proofs::Tests::all_is, crate::proofs::Same::same_is))]
fn is_fresh(d: Device) -> bool
    ensures { result ≡ is_fresh d }
{
    d == Device::default()
}

#[tactic(auto, using(laws::proofs::Tests::all_is), unfolding(rules::specs::Yard::device_formed))]
fn device_formed(p: Plan, i: u8, s: Slot, d: Device) -> bool
    ensures { s ≡ slot p i → result ≡ device_formed p i d }
{
    if u16::from(i) <= p.N {
        return place_formed(p, i, s, d) && letter_formed(p, i, d);
    }
    is_fresh(d)
}

// A state that a tick or a run may start from, under this plan.
#[tactic(auto, using(crate::proofs::Devices::begun, crate::proofs::Devices::next, crate::proofs::Devices::all_formed, crate::proofs::Devices::base_broken))]
pub fn well_formed(p: Plan, y: Yard) -> bool
    ensures { result ≡ well_formed p y }
{
    if !base_formed(p, y) {
        return false;
    }
    // Stays: a slot by its index: over the `zip` of devices and slots, by `all` or `for`, goals at the returns stayed open.
    for (k, d) in y.devices.iter().enumerate() {
        if !device_formed(p, k as u8 + 1, p.slots[k], *d) {
            return false;
        }
    }
    true
}
