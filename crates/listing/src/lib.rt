// Document 01's text of a run: the header and a line a tick, written into buffers that the caller lends.
// No public function here has a `requires`.
#![tactic(auto)]

mod lines;

ghost use Rattle.std.specs.Prelude.{◌≡◌, ◌+◌, length};
ghost use Rattle.listing_rules.specs.Listing.{header_written, header_buffer, list_answer, list_buffer};

use line::header_line;
use lines::lines;
use listing_rules::Listed;
use rules::{Plan, Yard};
use text::Pen;

// No line is longer, the header neither: one is begun only where so many bytes of room are left.
pub const LINE_ROOM: usize = 64;

// The header for n devices, from `at` on; it answers where the header ends. With more than 8 devices, or with fewer than
// 64 bytes of room behind `at`, it writes nothing and answers `at`.
// Stays: a place beside the buffer, as `wilatkhun_header` is handed them; the pen is made of both here.
#[tactic(auto, unfolding(listing_rules::specs::Listing::header_written, listing_rules::specs::Listing::header_buffer, laws::specs::Tests::all_of))]
pub fn header(n: u16, out: &mut [u8], at: usize) -> usize
    ensures value { result ≡ at + length (header_written n (length out.old) at) }
    ensures out_after { out.new ≡ header_buffer n out.old at }
{
    if 8 < n || out.len() < LINE_ROOM || out.len() - LINE_ROOM < at {
        return at;
    }
    let mut pen = Pen::new(out, at);
    header_line(n, &mut pen);
    pen.at
}

// The lines of a roll's ticks from the state it is given, numbered from first + 1: as many ticks as have room, each begun
// only with 64 bytes left. It answers where it stands; the caller goes on from that yard with the rest of the roll, the
// next block and first + ticks. It is refused as a run is, for its plan (1 to 9), its state (11 at 0), its roll's length
// (12 at 0), the first bad record of the whole roll (10 at its number from 1), and then answers the state it was given, 0
// ticks and length 0. Bytes behind the text keep their value, and all of them when refused.
pub fn list(p: Plan, y: Yard, roll: &[u8], first: u32, out: &mut [u8]) -> Listed
    ensures value { result ≡ list_answer p y roll.now first (length out.old) }
    ensures out_after { out.new ≡ list_buffer p y roll.now first out.old }
{
    let verdict = refusals::roll_verdict(p, y, roll);
    let Ok(()) = verdict else {
        return Listed {
            verdict,
            yard: y,
            ticks: 0,
            length: 0,
        };
    };
    lines(p, y, roll, first, out)
}
