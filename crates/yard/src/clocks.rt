// Step 1: the clocks that add 1. Callers have seen that the state is well formed, so that no clock is near the end of its
// type; nothing else in a tick adds to a clock, but `pace::stops_at` below its limit.
//
// Stays: each function here, `supervise`, `turn` and `rise` ask that a clock may add 1. As a type's promise it would take three
// types (the supervisor's two clocks, and a device, whose clock is a plain number in `rules`), built at each tick: no plainer.
ghost use Rattle.std.specs.Prelude.{◌≡◌, ◌≤◌};
ghost use Rattle.rules.specs.Tick.Step1.{place_clock, lease_clock, device_clock};
ghost use Rattle.pace.specs.Pace.{clocked_by};

use pace::stops_at;
use rules::{Base, Device, Place, Slot, Terms};

pub(crate) fn place_clock(t: Terms, base: Base, clock: u16) -> u16
    requires { clock ≤ 36000 }
    ensures { result ≡ place_clock t base clock }
{
    match base {
        Base::FallBack => stops_at(t.B, clock),
        Base::Lease(i) if i < t.N => clock + 1,
        Base::Lease(_) | Base::Cancel(_) | Base::Abort(_) => clock,
    }
}

pub(crate) fn lease_clock(base: Base, lease: u32) -> u32
    requires { lease ≤ 108000 }
    ensures { result ≡ lease_clock base lease }
{
    match base {
        Base::FallBack => lease,
        Base::Lease(_) | Base::Cancel(_) | Base::Abort(_) => lease + 1,
    }
}

fn device_clock(s: Slot, place: Place, clock: u16) -> u16
    requires { clock ≤ 36000 }
    ensures { result ≡ device_clock s place clock }
{
    match place {
        Place::FallBack => stops_at(s.F, clock),
        _ => clock + 1,
    }
}

pub(crate) fn clocked(s: Slot, d: Device) -> Device
    requires { d.clock ≤ 36000 }
    ensures { result ≡ clocked_by s d }
{
    device::clock_at(device_clock(s, d.place, d.clock), d)
}
