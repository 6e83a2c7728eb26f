// What could not be read or written, and why: a line on standard error.
use std::io::{self, Cursor, Write};

// Twice what the longest words of the system take; what is longer is cut off.
const ROOM: usize = 128;

// The system's words alone: std puts the number of the error behind them.
fn without_number(all: &str) -> &str {
    all.split_once(" (os error ")
        .map_or(all, |(words, _)| words)
}

// Says what failed, a file or standard output, and why. Where that cannot be said either, nobody is told.
pub(crate) fn tell(rt: &impl Eprint, what: &str, error: io::Error) {
    let mut words = Cursor::new([0u8; ROOM]);
    let _ = write!(words, "{error}");
    let len = (words.position() as usize).min(ROOM);
    let text = words.into_inner();
    let all = str::from_utf8(&text[..len]).unwrap_or("");
    let reason = without_number(all);
    let _ = eprintln!(rt; "{what}: {reason}");
}
