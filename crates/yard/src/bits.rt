// The byte of the devices that are engaged.
ghost use Rattle.std.specs.Prelude.{◌≡◌, ◌+◌, ◌≤◌, ◌<◌};
ghost use Rattle.yard.specs.Engaged.{bit_of, byte_of};

use pace::engages;
use rules::Device;

// Bit k, for the device that stands at k, if it is engaged.
fn engaged_bit(k: usize, d: Device) -> u8
    requires { k < 8 }
    ensures { result ≡ bit_of k d }
{
    if engages(d.place) { 1 << k } else { 0 }
}

// The byte of the first n devices.
// Stays: n beside the array, for the definition `byte_of` counts its first n; of a part, n would be its length in every clause.
#[tactic(auto, using(crate::proofs::Bytes::byte_none, crate::proofs::Bytes::byte_next))]
pub(crate) fn engaged_byte(n: usize, devices: [Device; 8]) -> u8
    requires { n ≤ 8 }
    ensures { result ≡ byte_of n devices }
{
    let mut byte = 0;
    for (k, d) in devices[..n].iter().enumerate() {
        byte += engaged_bit(k, *d);
    }
    byte
}

// The byte when the device at k has changed.
pub(crate) fn rebit(byte: u8, k: usize, before: Device, after: Device) -> u8
    requires { (k < 8) × (bit_of k before ≤ byte) × (byte + bit_of k after < 256 + bit_of k before) }
    ensures { result + bit_of k before ≡ byte + bit_of k after }
{
    byte - engaged_bit(k, before) + engaged_bit(k, after)
}
