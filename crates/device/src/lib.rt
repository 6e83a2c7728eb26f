// What one device does in a tick: its own move (step 2) and the letter that reaches it (step 4), made of the ways in which a
// device changes. These only compare clocks and set them, so they take any device, and no function here has a `requires`.
#![tactic(auto)]

ghost use Rattle.std.specs.Prelude.{◌≡◌};
ghost use Rattle.rules.specs.Yard as yard;
ghost use Rattle.rules.specs.Tick.Step2 as step2;
ghost use Rattle.rules.specs.Tick.Step4 as step4;

use rules::{CANCEL, Device, Down, Letter, Place, REQUEST, Slot};

// In Fall-Back, clock 0, no letter.
pub fn fresh_device() -> Device
    ensures { result ≡ yard.fresh_device }
{
    Device::default()
}

// A new place starts its clock at 0; a letter that waits stays.
pub fn goes_to(place: Place, d: Device) -> Device
    ensures { result ≡ yard.goes_to place d }
{
    Device {
        place,
        clock: 0,
        ..d
    }
}

pub fn writes(letter: Option<Letter>, d: Device) -> Device
    ensures { result ≡ yard.writes letter d }
{
    Device { letter, ..d }
}

// Both, for a move with a letter of its own.
fn goes_writing(place: Place, letter: Letter, d: Device) -> Device
    ensures { result ≡ yard.goes_writing place (Some letter) d }
{
    writes(Some(letter), goes_to(place, d))
}

pub fn clock_at(clock: u16, d: Device) -> Device
    ensures { result ≡ yard.clock_at clock d }
{
    Device { clock, ..d }
}

// Whether the time of its place has come.
fn due(q: u16, s: Slot, d: Device) -> bool
    ensures { result ≡ step2.due q s d.place d.clock }
{
    match d.place {
        Place::FallBack => false,
        Place::Requesting => d.clock == q,
        Place::Entering => d.clock == s.E,
        Place::Running => d.clock == s.R,
        Place::Exiting1 | Place::Exiting2 => d.clock == s.X,
    }
}

// Where a device goes whose time has come. A letter that waits stays, unless the move has one of its own.
fn due_move(d: Device) -> Device
    ensures { result ≡ step2.due_move d.place d }
{
    match d.place {
        Place::FallBack => d,
        Place::Requesting => goes_to(Place::FallBack, d),
        Place::Entering => goes_to(Place::Running, d),
        Place::Running => goes_to(Place::Exiting1, d),
        Place::Exiting1 | Place::Exiting2 => goes_writing(Place::FallBack, Letter::Exit, d),
    }
}

fn heed_request(s: Slot, d: Device) -> Device
    ensures { result ≡ step2.heed_request s d.place d }
{
    match d.place {
        Place::FallBack if d.clock == s.F => goes_writing(Place::Requesting, Letter::Request, d),
        _ => d,
    }
}

fn heed_cancel(d: Device) -> Device
    ensures { result ≡ step2.heed_cancel d.place d }
{
    match d.place {
        Place::Requesting => goes_writing(Place::FallBack, Letter::Cancel, d),
        Place::Entering => goes_writing(Place::Exiting2, Letter::Cancel, d),
        Place::Running => goes_writing(Place::Exiting1, Letter::Cancel, d),
        Place::FallBack | Place::Exiting1 | Place::Exiting2 => d,
    }
}

// The initializer and its command; any other byte is none.
#[tactic(auto, unfolding(rules::specs::Tick::Step2::heed))]
fn heed(s: Slot, command: u8, d: Device) -> Device
    ensures { result ≡ step2.heed s command d }
{
    match command {
        REQUEST => heed_request(s, d),
        CANCEL => heed_cancel(d),
        _ => d,
    }
}

// Step 2 of one device: by Q, its slot, whether it is the initializer, and the tick's command.
// Stays: initializer and command apart: the definition `moved` of step 2 has both, and looks at no participant's command.
#[tactic(auto, unfolding(rules::specs::Tick::Step2::moved))]
pub fn moved(q: u16, s: Slot, initializer: bool, command: u8, d: Device) -> Device
    ensures { result ≡ step2.moved q s initializer command d }
{
    if due(q, s, d) {
        return due_move(d);
    }
    if initializer {
        return heed(s, command, d);
    }
    d
}

fn hear_lease_req(s: Slot, willing: bool, d: Device) -> Device
    ensures { result ≡ step4.hear_lease_req s willing d.place d }
{
    match d.place {
        Place::FallBack if d.clock != s.F => d,
        Place::FallBack if willing => goes_writing(Place::Entering, Letter::Approve, d),
        Place::FallBack => goes_writing(Place::FallBack, Letter::Deny, d),
        _ => d,
    }
}

fn hear_grant(d: Device) -> Device
    ensures { result ≡ step4.hear_grant d.place d }
{
    match d.place {
        Place::Requesting => goes_to(Place::Entering, d),
        _ => d,
    }
}

fn hear_cancel(d: Device) -> Device
    ensures { result ≡ step4.hear_cancel d.place d }
{
    match d.place {
        Place::Entering => goes_to(Place::Exiting2, d),
        Place::Running => goes_to(Place::Exiting1, d),
        _ => d,
    }
}

// Step 4 of the device with number i, where the letter has not been lost: only the device that it is for heeds it.
#[tactic(auto, unfolding(rules::specs::Tick::Step4::arrived))]
pub fn arrived(s: Slot, willing: bool, l: Option<Down>, i: u8, d: Device) -> Device
    ensures { result ≡ step4.arrived s willing l i d }
{
    match l {
        Some(Down::LeaseReq(k)) if i == k => hear_lease_req(s, willing, d),
        Some(Down::Grant(k)) if i == k => hear_grant(d),
        Some(Down::Cancel(k) | Down::Abort(k)) if i == k => hear_cancel(d),
        _ => d,
    }
}
