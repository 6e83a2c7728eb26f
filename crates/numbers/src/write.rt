// Numbers written into a buffer, at any place: nothing is written past the end, and every other byte keeps its value.
// Stays: a place beside the buffer: the contracts are about any place, past the end too, where `out[at..]` is no part and a pen,
// as in `text`, would stand still.
ghost use Rattle.std.specs.Prelude.{◌+◌};
ghost use Rattle.laws.specs.Written.{Written};
ghost use Rattle.numbers.specs.Bytes.{two_bytes, four_bytes};

// The bytes from a place on, as many as have room.
pub fn put_bytes<const N: usize>(bytes: [u8; N], out: &mut [u8], at: usize)
    ensures { Written out.old at bytes.entry out.new (at + N) }
{
    let room = out.len().saturating_sub(at);
    // Stays: by index: a byte that has no room is passed over, and `Written` speaks of places.
    for k in 0..N {
        if k < room {
            out[at + k] = bytes[k];
        }
    }
}

// Stays: a function for each width, a line over `put_bytes`, as callers and docs/CONTRACTS.md name them. Each line names its width,
// so that an edit can turn one of them alone.
pub fn put_two(x: u16, out: &mut [u8], at: usize)
    ensures { Written out.old at (two_bytes x) out.new (at + 2) }
{
    put_bytes(u16::to_le_bytes(x), out, at);
}

pub fn put_four(x: u32, out: &mut [u8], at: usize)
    ensures { Written out.old at (four_bytes x) out.new (at + 4) }
{
    put_bytes(u32::to_le_bytes(x), out, at);
}
