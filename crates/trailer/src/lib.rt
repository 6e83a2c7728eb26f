// A plan file's trailer, its last ten bytes: read as numbers, judged as numbers, and written. It takes any bytes and any
// buffer; no function here has a `requires`.
#![tactic(auto)]

ghost use Rattle.std.specs.Prelude.{◌≡◌, ◌+◌};
ghost use Rattle.laws.specs.Written.{Written};
ghost use Rattle.rules.specs.Verdict as verdict;
ghost use Rattle.planfile_rules.specs.File.{trailer_in, trailer_of, devices_for, is_body_size, trailer_verdict};
ghost use Rattle.planfile_rules.specs.Writing.{trailer_bytes, trailer_for};

use numbers::read::{four_at, two_at};
use numbers::write::{put_four, put_two};
use planfile_rules::Trailer;
use rules::{Refusal, Verdict};

// The bytes 59 50 hex, little-endian.
const MARK: u16 = 0x5059;

// The bytes of a body before its first slot, and those of a slot.
// Stays: as in `bodies` and `slots`, which have them as usize: here each would be that one, narrowed to a trailer's u16.
const HEAD_SIZE: u16 = 8;

const SLOT_SIZE: u16 = 12;

// Every refusal of a file that is not the plan check's has index 0.
pub fn refusal(number: u8) -> Verdict
    ensures { result ≡ verdict.Refused number 0 }
{
    Err(Refusal { number, index: 0 })
}

#[tactic(auto, unfolding(planfile_rules::specs::File::trailer_in))]
fn read_trailer(ten: &[u8]) -> Trailer
    ensures { result ≡ trailer_in ten.now }
{
    Trailer {
        size: two_at(ten, 0),
        version: two_at(ten, 2),
        back: four_at(ten, 4),
        mark: two_at(ten, 8),
    }
}

// The trailer in a file's last ten bytes; in all of them where there are fewer. The ten are a part of their own: its length is
// known when the program is built, so that the tests of bounds drop out.
pub fn trailer_of(file: &[u8]) -> Trailer
    ensures { result ≡ trailer_of file.now }
{
    let len = file.len();
    if len < 10 {
        return read_trailer(file);
    }
    let last = len - 10;
    read_trailer(&file[last..])
}

#[tactic(auto, unfolding(planfile_rules::specs::File::devices_for))]
pub fn devices_for(size: u16) -> u16
    ensures { result ≡ devices_for size }
{
    size.saturating_sub(HEAD_SIZE) / SLOT_SIZE
}

#[tactic(auto, unfolding(planfile_rules::specs::File::devices_for, planfile_rules::specs::File::is_body_size))]
fn is_body_size(size: u16) -> bool
    ensures { result ≡ is_body_size size }
{
    let n = devices_for(size);
    (2..=8).contains(&n) && size == HEAD_SIZE + SLOT_SIZE * n
}

// The verdict on a trailer in a file of len bytes. A distance may be any four-byte number: it is compared, never added to.
// Stays: each test with its own `return`: `refused_if(.., 15, 0)?` would repeat at each the index 0 that `refusal` says once.
#[tactic(auto, unfolding(planfile_rules::specs::File::trailer_verdict, rules::specs::Verdict::first_refusal))]
pub fn judge(len: usize, t: Trailer) -> Verdict
    ensures { result ≡ trailer_verdict len t }
{
    if !(42..=65536).contains(&len) {
        return refusal(14);
    }
    if t.mark != MARK {
        return refusal(15);
    }
    if t.version != 1 {
        return refusal(16);
    }
    if !is_body_size(t.size) {
        return refusal(17);
    }
    let size = usize::from(t.size);
    let back = t.back as usize;
    if !(size + 10..=len).contains(&back) {
        return refusal(18);
    }
    Ok(())
}

// The trailer of a file that is written for n devices.
#[tactic(auto, unfolding(planfile_rules::specs::Writing::trailer_for))]
pub fn trailer_for(n: u8) -> Trailer
    ensures { result ≡ trailer_for n }
{
    let size = HEAD_SIZE + SLOT_SIZE * u16::from(n);
    Trailer {
        size,
        version: 1,
        back: u32::from(size) + 10,
        mark: MARK,
    }
}

// A trailer's ten bytes, from a place on.
// Stays: a place beside the buffer: the contract is about any place, past the end too, where `out[at..]` is no part.
#[tactic(auto, using(laws::proofs::Writes::past_end, laws::proofs::Writes::then_more), unfolding(planfile_rules::specs::Writing::trailer_bytes, numbers::specs::Bytes::two_bytes, numbers::specs::Bytes::four_bytes))]
pub fn put_trailer(t: Trailer, out: &mut [u8], at: usize)
    ensures { Written out.old at (trailer_bytes t) out.new (at + 10) }
{
    if out.len() <= at {
        return;
    }
    put_two(t.size, out, at);
    put_two(t.version, out, at + 2);
    put_four(t.back, out, at + 4);
    put_two(t.mark, out, at + 8);
}
