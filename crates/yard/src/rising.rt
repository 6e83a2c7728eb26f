// One device of a tick, steps 1 and 2, until its letter has gone up.
ghost use Rattle.std.specs.Prelude.{◌≡◌, ◌+◌, ◌*◌, ◌≤◌, ◌<◌, get_or};
ghost use Rattle.laws.specs.Bits as bits;
ghost use Rattle.rules.specs.Numbers.{place_number};
ghost use Rattle.rules.specs.Tick.Step2.{moved};
ghost use Rattle.pace.specs.Pace.{clocked_by, pace_by, went_up};

use crate::clocks::clocked;
use pace::{Risen, Turn, goes_up, pace_by};
use rules::Device;
use vocabulary::place_number;

// What the device at i does, as `pace_by` answers it. The row has the times that clocks run to, six for each device, by the
// number of its place.
pub(crate) fn pace_of(row: &[u16; 48], i: usize, command: u8, d: Device) -> Option<u16>
    requires { i < 8 }
    ensures { result ≡ pace_by (get_or row.now (6 * i + place_number d.place) 0) command d }
{
    let time = row[6 * i + usize::from(place_number(d.place))];
    pace_by(time, command, d)
}

// The device whose turn it is.
pub(crate) fn rise(t: Turn, d: Device) -> Risen
    requires { d.clock ≤ 36000 }
    ensures { result ≡ went_up (bits.bit t.lost t.i) (moved t.Q t.slot t.initializer t.command (clocked_by t.slot d)) }
{
    goes_up(t, clocked(t.slot, d))
}
