// The lines of a roll, tick after tick.
ghost use Rattle.std.specs.Prelude.{◌≡◌, length};
ghost use Rattle.rules.specs.Verdict.{Accepted};
ghost use Rattle.rules.specs.Tick.Input.{down_lost};
ghost use Rattle.rules.specs.Run.{roll_verdict};
ghost use Rattle.listing_rules.specs.Listing.{list_answer, list_buffer};

use crate::LINE_ROOM;
use line::line;
use listing_rules::Listed;
use rolls::{record_at, records};
use rules::{Plan, Record, Yard};
use text::Pen;

fn down_lost(r: Record) -> bool
    ensures { result ≡ down_lost r }
{
    pace::bit(r.flags, 1)
}

// As many ticks of a roll that is not refused as have room for their lines.
pub(crate) fn lines(p: Plan, y: Yard, roll: &[u8], first: u32, out: &mut [u8]) -> Listed
    requires { roll_verdict p y roll.now ≡ Accepted }
    ensures value { result ≡ list_answer p y roll.now first (length out.old) }
    ensures out_after { out.new ≡ list_buffer p y roll.now first out.old }
{
    let count = records(roll);
    let room = out.len();
    let mut pen = Pen::new(out, 0);
    let mut yard = y;
    let mut k: usize = 0;
    // Stays: `k` is part of the answer, and of what ends the loop; a `for` with a `break` would need a second count beside its own.
    while (k < count) & (LINE_ROOM <= room - pen.at) {
        let r = record_at(roll, k);
        let a = yard::tick(p, yard, r);
        yard = a.yard;
        let number = first as usize + k + 1;
        line(number, p.N, yard, a.down, down_lost(r), &mut pen);
        k += 1;
    }
    Listed {
        verdict: Ok(()),
        yard,
        ticks: k,
        length: pen.at,
    }
}
