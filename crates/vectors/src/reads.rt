// A file and a roll: what the reader and the run say of them, and the piece that the finder hands back.
use case_input::{byte, bytes, is_said, number_or_zero};
use rules::Verdict;
use std::io::Read;

// The verdict on a file, and where that is taken on a roll from a fresh yard, with nothing run.
fn verdict(file: &[u8], roll: &[u8]) -> Verdict {
    let answer = planfile::read(file);
    answer.verdict?;
    let start = yard::fresh(answer.plan);
    refusals::roll_verdict(answer.plan, start.yard, roll)
}

// The part that should be found, where it lies within what was lent.
fn wanted(whole: &[u8], start: usize, len: usize) -> Option<&[u8]> {
    whole.get(start..)?.get(..len)
}

// Whether one case comes out as it should.
fn right(input: &mut impl Read, file: &[u8], roll: &[u8]) -> bool {
    let v = verdict(file, roll);
    let said = is_said(input, v);
    let of_roll = byte(input) == 1;
    let start = number_or_zero(input);
    let len = number_or_zero(input);
    let found = finder::find(file, roll);
    let whole = if of_roll { roll } else { file };
    let there = *found == *wanted(whole, start, len).unwrap_or(whole);
    said & (found.len() == len) & there
}

// Whether the next case comes out right; none where there is no case.
pub(crate) fn next_read(input: &mut impl Read, file: &mut [u8], roll: &mut [u8]) -> Option<bool> {
    let file = bytes(input, file)?;
    let roll = bytes(input, roll)?;
    Some(right(input, file, roll))
}
