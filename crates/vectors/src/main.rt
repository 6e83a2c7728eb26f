// Runs the cases of its input, made by tools/vectors.py from documents 01 and 02 alone, through the reader, the run, the finder
// and the writer, and compares number, index, the refused bytes and the bytes written with what they should be.
//
// A case begins with its kind (1 byte); numbers are little-endian.
// Kind 0: the file's length (4) and bytes, the roll's length and bytes, then the refusal's number (1) and index (4), whether the
// piece is of the roll (1), where it starts (4) and how long it is (4).
// Kind 1, a write: the plan (104), the length of the buffer lent (4), then the refusal's number (1) and index (4), and the length
// (4) and bytes of what is written.
#![tactic(auto)]

mod reads;

use case_input::byte;
use reads::next_read;
use std::io::Read;
use write_cases::next_write;

// Whether the next case comes out right; none where there is no case. At the input's end the kind reads as 0, and no file follows.
fn next_case(input: &mut impl Read, file: &mut [u8], roll: &mut [u8]) -> Option<bool> {
    // Stays: a match on the kind's byte; two kinds that are read by one function each need no table of closures.
    match byte(input) {
        0 => next_read(input, file, roll),
        1 => next_write(input, file, roll),
        _ => None,
    }
}

// A proved loop has to end, and nothing says that an input does: it has more turns than there are cases.
fn main(rt: HostRuntime) {
    let mut input = rt.reader();
    let mut file = [0u8; 70000];
    let mut roll = [0u8; 70000];
    let mut cases = 0u64;
    let mut wrong = 0u64;
    for _ in 0..1_000_000 {
        let Some(right) = next_case(&mut input, &mut file, &mut roll) else {
            break;
        };
        cases = cases.wrapping_add(1);
        if !right {
            wrong = wrong.wrapping_add(1);
        }
    }
    let _ = println!(rt; "{cases} cases, {wrong} different");
}
