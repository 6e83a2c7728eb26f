// The calls for C and Rust: numbers and byte slices. include/wilatkhun.h has each contract in words, and the bytes' layout.
//
// A number behind a reference (index, ticks, length, start, down, device) is always written. A call that refuses changes no
// byte of a lent buffer. No exported function has a `requires`; of the private ones, `keep` and what it puts rest on the length
// that was looked at before.
//
// Stays: each call is written out, alike as some are, for C calls each by its own name and with its own numbers.
#![tactic(auto)]

mod kept;

ghost use Rattle.std.specs.Prelude.{◌≡◌, ◌+◌, length};
ghost use Rattle.listing_rules.specs.Listing.{header_written, header_buffer};
ghost use Rattle.exports_rules.specs.Calls.{Checked, Freshened, Ticked, Ran, Taken, Wrote, Found, Lined};

use answers::{answer, piece_len, piece_slice, piece_start};
use asked::{check_for, fresh_for, list_for, read_for, run_for, tick_for, write_for};
use kept::keep;
use rules::Record;
use vocabulary::{down_index, down_number};

#[unsafe(no_mangle)]
pub extern "C" fn wilatkhun_check(plan: &[u8], index: &mut usize) -> u8
    ensures { Checked plan.now result index.new }
{
    answer(check_for(plan), index)
}

#[tactic(auto, using(exports_rules::proofs::Lengths::fresh_sized, exports_rules::proofs::Lengths::fresh_same))]
#[unsafe(no_mangle)]
pub extern "C" fn wilatkhun_fresh(plan: &[u8], yard: &mut [u8], index: &mut usize) -> u8
    ensures { Freshened plan.now yard.old yard.new result index.new }
{
    let a = fresh_for(plan, yard.len());
    keep(a.verdict, a.yard, yard);
    answer(a.verdict, index)
}

#[tactic(auto, using(exports_rules::proofs::Lengths::tick_sized))]
#[unsafe(no_mangle)]
pub extern "C" fn wilatkhun_tick(
    plan: &[u8],
    yard: &mut [u8],
    command: u8,
    flags: u8,
    willing: u8,
    lost: u8,
    down: &mut u8,
    device: &mut u8,
    index: &mut usize,
) -> u8
    ensures { Ticked plan.now yard.old (record { command = command; flags = flags; willing = willing; lost = lost }) yard.new result down.new device.new index.new }
{
    let r = Record {
        command,
        flags,
        willing,
        lost,
    };
    let a = tick_for(plan, yard, r);
    keep(a.verdict, a.yard, yard);
    *down = down_number(a.down);
    *device = down_index(a.down);
    answer(a.verdict, index)
}

#[tactic(auto, using(exports_rules::proofs::Lengths::run_sized))]
#[unsafe(no_mangle)]
pub extern "C" fn wilatkhun_run(
    plan: &[u8],
    yard: &mut [u8],
    roll: &[u8],
    budget: usize,
    engaged: &mut [u8],
    ticks: &mut usize,
    index: &mut usize,
) -> u8
    ensures { Ran plan.now yard.old roll.now budget engaged.old yard.new engaged.new result ticks.new index.new }
{
    let a = run_for(plan, yard, roll, budget, engaged);
    keep(a.verdict, a.yard, yard);
    *ticks = a.ticks;
    answer(a.verdict, index)
}

#[tactic(auto, using(exports_rules::proofs::Lengths::read_sized))]
#[unsafe(no_mangle)]
pub extern "C" fn wilatkhun_read(file: &[u8], plan: &mut [u8], index: &mut usize) -> u8
    ensures { Taken file.now plan.old plan.new result index.new }
{
    let a = read_for(file, plan.len());
    keep(a.verdict, a.plan, plan);
    answer(a.verdict, index)
}

#[tactic(auto, using(exports_rules::proofs::Zero::zero_written))]
#[unsafe(no_mangle)]
pub extern "C" fn wilatkhun_write(
    plan: &[u8],
    file: &mut [u8],
    len: &mut usize,
    index: &mut usize,
) -> u8
    ensures { Wrote plan.now file.old file.new result len.new index.new }
{
    let written = write_for(plan, file);
    *len = written.length;
    answer(written.verdict, index)
}

#[unsafe(no_mangle)]
pub extern "C" fn wilatkhun_find(file: &[u8], roll: &[u8], start: &mut usize, len: &mut usize) -> u8
    ensures { Found file.now roll.now result start.new len.new }
{
    let piece = finder::locate(file, roll);
    *start = piece_start(piece);
    *len = piece_len(piece);
    piece_slice(piece)
}

#[unsafe(no_mangle)]
pub extern "C" fn wilatkhun_header(n: u16, out: &mut [u8], at: usize) -> usize
    ensures value { result ≡ at + length (header_written n (length out.old) at) }
    ensures out_after { out.new ≡ header_buffer n out.old at }
{
    listing::header(n, out, at)
}

#[tactic(auto, using(exports_rules::proofs::Lengths::list_sized))]
#[unsafe(no_mangle)]
pub extern "C" fn wilatkhun_list(
    plan: &[u8],
    yard: &mut [u8],
    roll: &[u8],
    first: u32,
    out: &mut [u8],
    ticks: &mut usize,
    len: &mut usize,
    index: &mut usize,
) -> u8
    ensures { Lined plan.now yard.old roll.now first out.old yard.new out.new result ticks.new len.new index.new }
{
    let a = list_for(plan, yard, roll, first, out);
    keep(a.verdict, a.yard, yard);
    *ticks = a.ticks;
    *len = a.length;
    answer(a.verdict, index)
}
