// A yard read from its bytes, as `layout` writes them. It takes any bytes; no function here has a `requires`: bytes that hold no
// yard are read as one that is never well formed.
#![tactic(auto)]

ghost use Rattle.std.specs.Prelude.{◌≡◌, ◌+◌, replicate};
ghost use Rattle.laws.specs.Tests.{each};
ghost use Rattle.laws.specs.Lists.{tabulate};
ghost use Rattle.rules.specs.Yard.{fresh_device};
ghost use Rattle.layout_rules.specs.Reading.{base_stands, device_stands, is_yard, device_in, no_yard, yard_of};

use device::fresh_device;
use layout::yard::{YARD_SIZE, device_start};
use numbers::read::{byte_at, four_at, two_at};
use rules::{Base, Device, Yard};
use vocabulary::{base_of, letter_of, place_of};

fn base_stands(number: u8, i: u8) -> bool
    ensures { result ≡ base_stands number i }
{
    (number <= 3) & ((0 < number) | (i == 0))
}

fn device_stands(bytes: &[u8], k: u8) -> bool
    ensures { result ≡ device_stands bytes.now (k + 1) }
{
    let at = device_start(k);
    (byte_at(bytes, at + 2) <= 5) & (byte_at(bytes, at + 3) <= 5)
}

// Stays: a `for` over all eight; with `all` in its place, which was tried, a reading takes a seventh more instructions.
fn devices_stand(bytes: &[u8]) -> bool
    ensures { result ≡ each (device_stands bytes.now) 8 }
{
    let mut all = true;
    for k in 0..8 {
        all &= device_stands(bytes, k);
    }
    all
}

// The length is looked at first and by itself: whoever reads a byte behind that need not ask for it again.
#[tactic(auto, unfolding(layout_rules::specs::Reading::is_yard, laws::specs::Tests::all_of))]
fn is_yard(bytes: &[u8]) -> bool
    ensures { result ≡ is_yard bytes.now }
{
    YARD_SIZE <= bytes.len()
        && base_stands(byte_at(bytes, 0), byte_at(bytes, 1)) & devices_stand(bytes)
}

fn fresh_devices() -> [Device; 8]
    ensures { result ≡ replicate 8 fresh_device }
{
    [fresh_device(); 8]
}

// What other bytes are read as: no plan takes it, for there is no device 0.
// Stays: a yard and no `None`: `yard_of` is one yard for all bytes that hold none (theorem `malformed_alone`).
#[tactic(auto, unfolding(layout_rules::specs::Reading::no_yard))]
fn no_yard() -> Yard
    ensures { result ≡ no_yard }
{
    Yard {
        base: Base::Lease(0),
        clock: 0,
        lease: 0,
        devices: fresh_devices(),
    }
}

#[tactic(auto, unfolding(layout_rules::specs::Reading::device_in))]
fn device_in(bytes: &[u8], k: u8) -> Device
    ensures { result ≡ device_in bytes.now (k + 1) }
{
    let at = device_start(k);
    Device {
        clock: two_at(bytes, at),
        place: place_of(byte_at(bytes, at + 2)),
        letter: letter_of(byte_at(bytes, at + 3)),
    }
}

// Stays: a u8 counted here: out of `enumerate` or `from_fn` comes a usize, which would be narrowed for `device_start`.
fn devices_in(bytes: &[u8]) -> [Device; 8]
    ensures { result ≡ tabulate (device_in bytes.now) 8 }
{
    let mut devices = fresh_devices();
    for k in 0..8 {
        devices[usize::from(k)] = device_in(bytes, k);
    }
    devices
}

// The yard that the bytes start with; of too few bytes, and of malformed ones, a yard that is well formed under no plan.
#[tactic(auto, unfolding(layout_rules::specs::Reading::yard_in, layout_rules::specs::Reading::yard_of))]
pub fn read(bytes: &[u8]) -> Yard
    ensures { result ≡ yard_of bytes.now }
{
    if !is_yard(bytes) {
        return no_yard();
    }
    Yard {
        base: base_of(byte_at(bytes, 0), byte_at(bytes, 1)),
        clock: two_at(bytes, 2),
        lease: four_at(bytes, 4),
        devices: devices_in(bytes),
    }
}
