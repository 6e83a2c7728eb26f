// Cases of plans that are written as files: what the writer says of each, and every byte of the buffer. `vectors` runs them. What
// is read, no contract can say.
#![tactic(auto)]

use bodies::PLAN_SIZE;
use case_input::{fill, is_said, number_or_zero};
use rules::Plan;
use std::io::Read;

// Fills a buffer with a pattern in which neighbours differ, so that a byte written where none should be shows.
fn shade(buffer: &mut [u8]) {
    let mut next = 165u8;
    for b in buffer.iter_mut() {
        *b = next;
        next = next.wrapping_add(59);
    }
}

// Makes of a buffer what one should be after a write: the next bytes of the input in its front, the pattern behind them.
fn expect_written(input: &mut impl Read, buffer: &mut [u8], len: usize) -> bool {
    shade(buffer);
    let Some(front) = buffer.get_mut(..len) else {
        return false;
    };
    fill(input, front) == len
}

// Whether what was written, the first `len` bytes of `file`, is read as a plan that is written as these bytes again. After a
// refusal there is nothing to read.
// Stays: a length and no `Option`: each write case of the input has a length (`vectors`), which is 0 after a refusal.
fn comes_back(file: &[u8], len: usize, again: &mut [u8]) -> bool {
    if len == 0 {
        return true;
    }
    let Some(written) = file.get(..len) else {
        return false;
    };
    let answer = planfile::read(written);
    let Ok(()) = answer.verdict else {
        return false;
    };
    shade(again);
    planfile::write(answer.plan, again);
    *file == *again
}

// Whether a write comes out as it should: number, index, length and every byte lent, past the end and after a refusal too.
fn written_right(input: &mut impl Read, p: Plan, file: &mut [u8], other: &mut [u8]) -> bool {
    shade(file);
    let answer = planfile::write(p, file);
    let said = is_said(input, answer.verdict);
    let len = number_or_zero(input);
    if !expect_written(input, other, len) {
        return false;
    }
    let same = *file == *other;
    let back = comes_back(file, len, other);
    said & (answer.length == len) & same & back
}

// Whether the next case comes out right; none where there is no case.
pub fn next_write(input: &mut impl Read, file: &mut [u8], other: &mut [u8]) -> Option<bool> {
    let mut plan = [0u8; PLAN_SIZE];
    if fill(input, &mut plan) < PLAN_SIZE {
        return None;
    }
    let p = bodies::whole_plan(&plan);
    let room = number_or_zero(input);
    let file = file.get_mut(..room)?;
    let other = other.get_mut(..room)?;
    Some(written_right(input, p, file, other))
}
