// A yard as bytes: where the base stands, its device, the place clock (2), the lease clock (4), then for each of the eight
// devices its clock (2), its place and its letter.
ghost use Rattle.std.specs.Prelude.{◌≡◌, ◌++◌, ◌+◌, length, drop};
ghost use Rattle.laws.specs.Written.{Written};
ghost use Rattle.layout_rules.specs.Bytes.{device_bytes, devices_bytes, device_start, yard_size, yard_written};

use numbers::write::{put_bytes, put_four, put_two};
use rules::{Device, Yard};
use vocabulary::{base_index, base_number, letter_number, place_number};

pub const YARD_SIZE: usize = 40;

// Where the bytes of device k + 1 start.
pub fn device_start(k: u8) -> usize
    ensures { result ≡ device_start (k + 1) }
{
    8 + 4 * usize::from(k)
}

fn put_device(d: Device, out: &mut [u8], k: u8)
    ensures { Written out.old (device_start (k + 1)) (device_bytes d) out.new (device_start (k + 1) + 4) }
{
    let at = device_start(k);
    put_two(d.clock, out, at);
    put_bytes(
        [place_number(d.place), letter_number(d.letter)],
        out,
        at + 2,
    );
}

// Stays: a u8 counted here: out of `enumerate` comes a usize, which would be narrowed for `device_start`.
fn put_devices(devices: [Device; 8], out: &mut [u8])
    ensures { Written out.old (device_start 1) (devices_bytes devices 8) out.new yard_size }
{
    for k in 0..8 {
        put_device(devices[usize::from(k)], out, k);
    }
}

// A yard's bytes at the front of a buffer; the answer is how many bytes were written, none in a shorter buffer. Later bytes
// keep their value.
#[tactic(auto, unfolding(layout_rules::specs::Bytes::yard_written))]
pub fn put(y: Yard, out: &mut [u8]) -> usize
    ensures value { result ≡ length (yard_written y (length out.old)) }
    ensures out_after { out.new ≡ yard_written y (length out.old) ++ drop result out.old }
{
    if out.len() < YARD_SIZE {
        return 0;
    }
    put_bytes([base_number(y.base), base_index(y.base)], out, 0);
    put_two(y.clock, out, 2);
    put_four(y.lease, out, 4);
    put_devices(y.devices, out);
    YARD_SIZE
}
