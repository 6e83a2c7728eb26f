// What one device does in a tick and what is heard of it, as far as it can be told for any device and any clock: no function
// here has a `requires`. The run's loop in `yard` goes by these; step 1 of a device that moves is done there.
#![tactic(auto)]

ghost use Rattle.std.specs.Prelude.{◌≡◌, cond, ◌-◌, ◌≤◌, IfSome};
ghost use Rattle.laws.specs.Bits as bits;
ghost use Rattle.rules.specs.Yard as rules;
ghost use Rattle.rules.specs.Numbers.{base_index};
ghost use Rattle.rules.specs.Tick.Step1.{stops_at};
ghost use Rattle.rules.specs.Tick.Step2.{moved};
ghost use Rattle.rules.specs.Tick.Step4.{arrived};
ghost use Rattle.pace.specs.Pace.{stirring, pace_by, heard_of, went_up, reached_by};

use rules::{BaseMove, CANCEL, Device, Letter, Place, REQUEST, Slot};
use vocabulary::{base_index, down_index};

// Bit k of a byte; from 8 on there is none.
#[tactic(auto, using(crate::proofs::Bits::bit_none), unfolding(laws::specs::Bits::bit))]
pub fn bit(b: u8, k: usize) -> bool
    ensures { result ≡ bits.bit b k }
{
    k < 8 && (b >> k) % 2 == 1
}

// Whether a device in this place is engaged.
#[tactic(auto, unfolding(rules::specs::Yard::engaged))]
pub fn engages(place: Place) -> bool
    ensures { result ≡ rules.engaged place }
{
    matches!(place, Place::Running | Place::Exiting1)
}

pub fn stops_at(limit: u16, clock: u16) -> u16
    ensures { result ≡ stops_at limit clock }
{
    if clock < limit { clock + 1 } else { clock }
}

// Whether more than its clock moves: a letter waits, a command is heeded (a request in Fall-Back, elsewhere a cancel), or the
// clock comes to `time`.
#[tactic(auto, using(crate::proofs::Quiet::waits_is, crate::proofs::Quiet::rests_is), unfolding(crate::specs::Pace::stirring))]
fn stirs(time: u16, command: u8, d: Device) -> bool
    ensures { result ≡ stirring time command d }
{
    let waits = d.letter.is_some();
    if d.place == Place::FallBack {
        return waits | (command == REQUEST);
    }
    waits | (command == CANCEL) | (u32::from(d.clock) + 1 >= u32::from(time))
}

// What a device does, if its clock runs to `time` in the place where it stands: in Fall-Back it stops there, elsewhere the
// device is due. Most of the time only the clock moves, to what is answered; none where more than that moves.
pub fn pace_by(time: u16, command: u8, d: Device) -> Option<u16>
    ensures { result ≡ pace_by time command d }
{
    if stirs(time, command, d) {
        return None;
    }
    Some(stops_at(time, d.clock))
}

// What the supervisor hears of a letter that went up.
pub fn heard(lost: bool, letter: Option<Letter>) -> Option<Letter>
    ensures { result ≡ heard_of lost letter }
{
    if lost { None } else { letter }
}

// A device that has moved and whose letter has gone up, and what is heard of that letter.
#[derive(Clone, Copy)]
pub struct Risen {
    pub device: Device,
    pub heard: Option<Letter>,
}

// What the device at i goes by in a tick: Q and its times, whether it is the initializer, which alone heeds the command, and the
// record's byte of lost letters, whose bit i is its own.
#[derive(Clone, Copy)]
pub struct Turn {
    pub i: usize,
    pub Q: u16,
    pub slot: Slot,
    pub initializer: bool,
    pub command: u8,
    pub lost: u8,
}

// A device whose clock has moved: it moves, and its letter goes up, and is lost where the turn says so.
pub fn goes_up(t: Turn, d: Device) -> Risen
    ensures { result ≡ went_up (bits.bit t.lost t.i) (moved t.Q t.slot t.initializer t.command d) }
{
    let m = device::moved(t.Q, t.slot, t.initializer, t.command, d);
    Risen {
        device: device::writes(None, m),
        heard: heard(bit(t.lost, t.i), m.letter),
    }
}

// What is heard of the device that is listened to: of this one, where it is the one, else what was heard before.
pub fn listen(here: bool, up: Risen, before: Option<Letter>) -> Option<Letter>
    ensures { result ≡ cond here up.heard before }
{
    if here { up.heard } else { before }
}

// The device that the down letter reaches, of n: the one that it is for, unless it is lost.
// Stays: 0 for none is asked of `down_index`: so `reached_by` is defined, and one test passes over the many ticks with no letter.
pub fn reached(n: u8, flags: u8, s: BaseMove) -> Option<u8>
    ensures device { result ≡ reached_by n (bits.bit flags 1) s.down }
    ensures in_the_yard { IfSome result (λ i. (1 ≤ i) × (i ≤ n)) }
{
    let i = down_index(s.down);
    // Most ticks send none.
    if i == 0 {
        return None;
    }
    if (i <= n) & !bit(flags, 1) {
        return Some(i);
    }
    None
}

// Where device i stands in an array; there is no device 0, and it stands for device 1.
// Stays: no `Option`: the contract is `i - 1` for every i, and of Fall-Back's own device nothing is asked (step 3).
pub fn index_of(i: u8) -> usize
    ensures { result ≡ i - 1 }
{
    usize::from(i.saturating_sub(1))
}

// Where the device stands that the supervisor's place is about.
pub fn own_index(s: BaseMove) -> usize
    ensures { result ≡ base_index s.base - 1 }
{
    index_of(base_index(s.base))
}

// Device i, which the down letter has reached.
pub fn arrive(s: Slot, willing: u8, sent: BaseMove, i: u8, d: Device) -> Device
    ensures { result ≡ arrived s (bits.bit willing (i - 1)) sent.down i d }
{
    device::arrived(s, bit(willing, index_of(i)), sent.down, i, d)
}
