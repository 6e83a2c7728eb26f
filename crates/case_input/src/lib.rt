// The input of the programs that try cases, number by number, little-endian. What is read, no contract can say.
#![tactic(auto)]

ghost use Rattle.std.specs.Prelude.{◌≤◌, length};

use rules::Verdict;
use std::io::Read;
use vocabulary::{index_of, number_of};

// Fills a buffer from the input and answers how many bytes it has now: fewer than it holds where the input ends or a read
// fails. Each turn reads a byte or more, so there are as many as the buffer has bytes.
// Stays: one loop for this and `rehearsal`'s would answer a count beside a failed read, since there no byte before it counts.
pub fn fill(input: &mut impl Read, buffer: &mut [u8]) -> usize
    ensures { result ≤ length buffer.new }
{
    let mut done: usize = 0;
    for _ in 0..buffer.len() {
        match input.read(&mut buffer[done..]) {
            Ok(0) | Err(_) => break,
            Ok(more) => done += more,
        }
    }
    done
}

// Four bytes of the input as a number; those that are not there are 0.
// Stays: beside `next_number`: with that one's `unwrap_or(0)`, the bytes of a number that the input cuts short would not count.
pub fn number_or_zero(input: &mut impl Read) -> usize {
    let mut b = [0u8; 4];
    fill(input, &mut b);
    u32::from_le_bytes(b) as usize
}

// The next four bytes of the input, where it has as many.
fn next_number(input: &mut impl Read) -> Option<usize> {
    let mut b = [0u8; 4];
    if fill(input, &mut b) < 4 {
        return None;
    }
    Some(u32::from_le_bytes(b) as usize)
}

// The next byte of the input; 0 where there is none.
// Stays: 0 and no `Option`: an input that has given none may give more (a terminal, a read that failed once), so whoever asks
// for a byte reads on behind it, as behind a number (`number_or_zero`).
pub fn byte(input: &mut impl Read) -> u8 {
    let mut b = [0u8; 1];
    fill(input, &mut b);
    b[0]
}

// The next bytes of the input, as many as a number before them says, at the front of the buffer; none where the input has not as
// many, or the buffer has no room for them.
pub fn bytes<'a>(input: &mut impl Read, buffer: &'a mut [u8]) -> Option<&'a [u8]> {
    let len = next_number(input)?;
    let part = buffer.get_mut(..len)?;
    if fill(input, part) < len {
        return None;
    }
    Some(part)
}

// Whether a verdict has the number (1 byte) and the index (4) that come next.
pub fn is_said(input: &mut impl Read, v: Verdict) -> bool {
    let number = byte(input);
    let index = number_or_zero(input);
    (number_of(v) == number) & (index_of(v) == index)
}
