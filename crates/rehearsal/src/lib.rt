// The program that crews run, as a library: it rehearses the plan in `yard.plan` on the roll in `yard.roll`, both in the
// current folder, from a fresh yard, and prints the listing, or `refused NUMBER INDEX` and nothing else.
// A file that is missing, or that cannot be read to its end, counts as empty; a line on standard error says which and why.
// Where standard output cannot be written the program stops at once, and a line on standard error says why.
#![tactic(auto)]

mod files;
mod trouble;

use files::load;
use rules::{Plan, Refusal, Yard};
use std::io;
use std::rt::Files;
use trouble::tell;

// The roll's lines, block after block. A proved loop has to end: each block but the last holds a thousand lines or more, and a
// roll has at most 10,000 ticks, so the 100 turns are more than it takes. No block has more ticks than the roll; that is tested
// so that the proof sees that their number fits `first`.
fn say_lines(rt: &impl Print, p: Plan, fresh: Yard, roll: &[u8]) -> io::Result<()> {
    let mut block = [0u8; 65536];
    let mut y = fresh;
    let mut rest = roll;
    let mut first: u32 = 0;
    for _ in 0..100 {
        let l = listing::list(p, y, rest, first, &mut block);
        if l.ticks == 0 || 10000 < l.ticks {
            break;
        }
        if let Some(lines) = block.get(..l.length) {
            rt.write_all(lines)?;
        }
        let Some(behind) = rest.get(rolls::record_start(rest, l.ticks)..) else {
            break;
        };
        y = l.yard;
        rest = behind;
        first = first.wrapping_add(l.ticks as u32);
    }
    Ok(())
}

fn say_header(rt: &impl Print, n: u16) -> io::Result<()> {
    let mut block = [0u8; listing::LINE_ROOM];
    let len = listing::header(n, &mut block, 0);
    if let Some(header) = block.get(..len) {
        rt.write_all(header)?;
    }
    Ok(())
}

fn refuse(rt: &impl Print, refusal: Refusal) -> io::Result<()> {
    // Stays: DECISIONS 44, `rules` has no running code but its derives, and `impl Display for Refusal` would have to stand there.
    let Refusal { number, index } = refusal;
    println!(rt; "refused {number} {index}")
}

// A plan that is taken, and its roll: refused as a whole, or listed.
fn show_roll(rt: &impl Print, p: Plan, roll: &[u8]) -> io::Result<()> {
    let y = yard::fresh(p).yard;
    match refusals::roll_verdict(p, y, roll) {
        Err(refusal) => refuse(rt, refusal),
        Ok(()) => {
            say_header(rt, p.N)?;
            say_lines(rt, p, y, roll)
        }
    }
}

fn show(rt: &impl Print, file: &[u8], roll: &[u8]) -> io::Result<()> {
    let answer = planfile::read(file);
    match answer.verdict {
        Err(refusal) => refuse(rt, refusal),
        Ok(()) => show_roll(rt, answer.plan, roll),
    }
}

// The same of any two files. Of the plan file one byte more than the longest, so that a longer one is seen to be too long; of
// the roll the first 40,000 bytes, 10,000 ticks.
pub fn rehearse_files(rt: &(impl Files + Print + Eprint), plan_path: &[u8], roll_path: &[u8]) {
    let mut file = [0u8; 65537];
    let mut roll = [0u8; 40000];
    let file = load(rt, plan_path, &mut file);
    let roll = load(rt, roll_path, &mut roll);
    if let Err(e) = show(rt, file, roll) {
        tell(rt, "standard output", e);
    }
}

pub fn rehearse(rt: &(impl Files + Print + Eprint)) {
    rehearse_files(rt, b"yard.plan", b"yard.roll");
}
