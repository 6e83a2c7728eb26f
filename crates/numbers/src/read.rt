// Numbers read from a slice, at any place: past the end each byte is 0.
// Stays: a place beside the slice: the contracts are about any place, and past the end there is no part `s[at..]` to hand on.
// Stays: no `bytes_at` of N bytes below `two_at` and `four_at`: it would fill an array byte by byte; each is a test and a line.
ghost use Rattle.std.specs.Prelude.{◌≡◌, ◌+◌, ◌*◌, get_or};
ghost use Rattle.numbers.specs.Bytes.{num16, num32};

pub fn byte_at(s: &[u8], at: usize) -> u8
    ensures { result ≡ get_or s.now at 0 }
{
    s.get(at).copied().unwrap_or(0)
}

// The number of two bytes, the lower one first.
pub fn two(low: u8, high: u8) -> u16
    ensures { result ≡ low + 256 * high }
{
    u16::from_le_bytes([low, high])
}

#[tactic(auto, using(crate::proofs::Back::nothing_there), unfolding(crate::specs::Bytes::num16))]
pub fn two_at(s: &[u8], at: usize) -> u16
    ensures { result ≡ num16 s.now at }
{
    if s.len() <= at {
        return 0;
    }
    two(s[at], byte_at(s, at + 1))
}

#[tactic(auto, using(crate::proofs::Back::nothing_there), unfolding(crate::specs::Bytes::num32))]
pub fn four_at(s: &[u8], at: usize) -> u32
    ensures { result ≡ num32 s.now at }
{
    if s.len() <= at {
        return 0;
    }
    u32::from(two_at(s, at)) + 65536 * u32::from(two_at(s, at + 2))
}
