// The loop that every tick goes through: the single tick and the run both lend it a roll and a buffer.
//
// Document 01's four steps, and where they are done:
//   1  the clocks         of a device: `pace::pace_by`, which `pace_of` asks (rising.rt), where only its clock moves; else
//                         `clocked`, which `rise` calls; of the supervisor: `place_clock`, `lease_clock` (all in clocks.rt)
//   2  the devices move   `device::moved`, which `pace::goes_up` calls, and `rise` that (rising.rt)
//   3  the letters go up  `pace::goes_up` takes each from its device; then `supervise` (here): `base::base_move`
//   4  the down letter    `device::arrived`, which `pace::arrive` calls, at the one device that `pace::reached` has found
// Until its letter is up no device looks at another, so the loop goes from device to device, and not from step to step.
ghost use Rattle.std.specs.Prelude.{◌≡◌, ◌+◌, ◌<◌, true, ◌++◌, ◌≤◌, length, drop};
ghost use Rattle.laws.specs.Bits as bits;
ghost use Rattle.rules.specs.Verdict.{Accepted};
ghost use Rattle.rules.specs.Plan.{terms};
ghost use Rattle.rules.specs.Table.{plan_verdict};
ghost use Rattle.rules.specs.declared.Device.{Device};
ghost use Rattle.rules.specs.Yard.{well_formed};
ghost use Rattle.rules.specs.Tick.Step1.{place_clock, lease_clock};
ghost use Rattle.rules.specs.Tick.Step3.{base_move};
ghost use Rattle.rules.specs.Run.{after, engaged_bytes};
ghost use Rattle.yard.specs.Engaged.{bit_of};
ghost use Rattle.yard.specs.Sent.{last_down};
ghost use Rattle.yard.specs.Turned.{time_in, turned, heard_in, listened_in};

use crate::bits::{engaged_byte, rebit};
use crate::clocks::{lease_clock, place_clock};
use crate::rising::{pace_of, rise};
use base::{Clocks, Hearing};
use lease::lease_length;
use pace::{Turn, arrive, bit, index_of, listen, own_index, reached};
use rolls::record_at;
use rules::{BaseMove, Device, Down, Letter, Plan, Terms, Yard};
use times::row_of;

fn terms_of(p: Plan) -> Terms
    requires { p.N ≤ 8 }
    ensures { result ≡ terms p }
{
    Terms {
        N: p.N as u8,
        W: p.W,
        B: p.B,
        LS: lease_length(p),
    }
}

// The supervisor's clocks and its move, by what it hears of the initializer and of the device that its place is about.
fn supervise(
    t: Terms,
    flags: u8,
    last: Option<Letter>,
    own: Option<Letter>,
    s: BaseMove,
) -> BaseMove
    requires { (s.clock ≤ 36000) × (s.lease ≤ 108000) }
    ensures { result ≡ base_move t (bits.bit flags 0) last own s.base (place_clock t s.base s.clock) (lease_clock s.base s.lease) }
{
    let heard = Hearing {
        approved: bit(flags, 0),
        last,
        own,
    };
    let clocks = Clocks {
        place: place_clock(t, s.base, s.clock),
        lease: lease_clock(s.base, s.lease),
    };
    base::base_move(t, heard, s.base, clocks)
}

// The state at the end of some ticks, and the down letter that was sent in the last.
#[derive(Clone, Copy)]
pub(crate) struct Stepped {
    pub yard: Yard,
    pub down: Option<Down>,
}

// What is noted as the devices have their turns: what is heard of the one that is listened to, and the byte of those engaged.
#[derive(Clone, Copy)]
struct Noted {
    from_own: Option<Letter>,
    byte: u8,
}

// The turn of one device: it moves and its letter goes up, and what is heard of that is answered; most of the time only its
// clock moves. The byte is made anew only where the device moves; elsewhere its place, and so its bit, is as it was.
fn turn(row: &[u16; 48], t: Turn, own: usize, d: &mut Device, noted: &mut Noted) -> Option<Letter>
    requires low { (t.i < 8) × (d.old.clock ≤ 36000) }
    requires byte_fits { (x : Device) → (bit_of t.i d.old ≤ noted.old.byte)
        × (noted.old.byte + bit_of t.i x < 256 + bit_of t.i d.old) }
    ensures device { d.new ≡ turned (time_in row.now t.i d.old) t d.old }
    ensures heard { result ≡ heard_in (time_in row.now t.i d.old) t d.old }
    ensures from_own { noted.new.from_own ≡ listened_in (time_in row.now t.i d.old) t own noted.old.from_own d.old }
    ensures byte { noted.new.byte + bit_of t.i d.old ≡ noted.old.byte + bit_of t.i d.new }
{
    let before = *d;
    match pace_of(row, t.i, t.command, before) {
        Some(clock) => {
            d.clock = clock;
            None
        }
        None => {
            let up = rise(t, before);
            noted.from_own = listen(t.i == own, up, noted.from_own);
            noted.byte = rebit(noted.byte, t.i, before, up.device);
            *d = up.device;
            up.heard
        }
    }
}

// As many ticks as asked, from a state that is well formed under a plan that is accepted; the buffer has room. Beyond
// its end a roll has records of zeros.
pub(crate) fn roll_on(p: Plan, y: Yard, roll: &[u8], ticks: usize, engaged: &mut [u8]) -> Stepped
    requires sound { (plan_verdict p ≡ Accepted) × (well_formed p y ≡ true) }
    requires ticks_in_bounds { ticks ≤ length engaged.old }
    ensures yard_after { (result.yard ≡ after p y roll.now ticks) × (result.down ≡ last_down p y roll.now ticks) }
    ensures engaged_after { engaged.new ≡ engaged_bytes p y roll.now ticks ++ drop ticks engaged.old }
{
    let t = terms_of(p);
    let row = row_of(p.Q, p.slots);
    let last = index_of(t.N);
    let mut devices = y.devices;
    let mut supervisor = BaseMove {
        base: y.base,
        clock: y.clock,
        lease: y.lease,
        down: None,
    };
    let mut noted = Noted {
        from_own: None,
        byte: engaged_byte(last + 1, devices),
    };
    for (k, kept) in engaged[..ticks].iter_mut().enumerate() {
        let r = record_at(roll, k);
        let own = own_index(supervisor);
        noted.from_own = None;
        // The participants; then the initializer, which alone heeds the command.
        // Stays: by index: devices, slots and bits share it, and the supervisor's letter finds a device by it too.
        for i in 0..last {
            let participant = Turn {
                i,
                Q: p.Q,
                slot: p.slots[i],
                initializer: false,
                command: 0,
                lost: r.lost,
            };
            turn(&row, participant, own, &mut devices[i], &mut noted);
        }
        let initializer = Turn {
            i: last,
            Q: p.Q,
            slot: p.slots[last],
            initializer: true,
            command: r.command,
            lost: r.lost,
        };
        let from_last = turn(&row, initializer, own, &mut devices[last], &mut noted);
        supervisor = supervise(t, r.flags, from_last, noted.from_own, supervisor);
        if let Some(to) = reached(t.N, r.flags, supervisor) {
            let at = index_of(to);
            devices[at] = arrive(p.slots[at], r.willing, supervisor, to, devices[at]);
        }
        *kept = noted.byte;
    }
    Stepped {
        yard: Yard {
            base: supervisor.base,
            clock: supervisor.clock,
            lease: supervisor.lease,
            devices,
        },
        down: supervisor.down,
    }
}
