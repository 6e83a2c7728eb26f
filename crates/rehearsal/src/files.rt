// The files that a crew brings, read into buffers.
ghost use Rattle.std.specs.Prelude.{◌≤◌, length, IfOk};

use crate::trouble::tell;
use std::io::Read;
use std::rt::Files;
use std::{fs, io};

// Reads to the file's end, or to the buffer's, and answers how many bytes; an error where a read fails, since what came before
// it is not the file. Each turn reads a byte or more, so there are as many as the buffer has bytes.
// Stays: one loop for this and `case_input::fill` would answer a count beside a failed read, for there the bytes before it count.
fn fill(file: &mut impl Read, buffer: &mut [u8]) -> io::Result<usize>
    ensures { IfOk result (λ done. done ≤ length buffer.new) }
{
    let mut done: usize = 0;
    for _ in 0..buffer.len() {
        let more = file.read(&mut buffer[done..])?;
        if more == 0 {
            break;
        }
        done += more;
    }
    Ok(done)
}

fn open_and_fill(rt: &impl Files, path: &str, buffer: &mut [u8]) -> io::Result<usize>
    ensures { IfOk result (λ len. len ≤ length buffer.new) }
{
    let mut file = fs::open(rt, path)?;
    fill(&mut file, buffer)
}

// The bytes of a file, as many as the buffer holds, at its front. A file that cannot be opened, or read to its end, has none, and
// a line on standard error says why. A path that is no text names no file.
pub(crate) fn load<'a>(rt: &(impl Files + Eprint), path: &[u8], buffer: &'a mut [u8]) -> &'a [u8]
    ensures { length result.now ≤ length buffer.old }
{
    let Ok(name) = str::from_utf8(path) else {
        let _ = eprintln!(rt; "a file's path is no text");
        return &[];
    };
    match open_and_fill(rt, name, buffer) {
        Ok(len) => &buffer[..len],
        Err(e) => {
            tell(rt, name, e);
            &[]
        }
    }
}
