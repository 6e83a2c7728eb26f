// Document 01's "The plan file": types here, definitions and theorems in specs/. Its reader and its writer stand in `planfile`.
#![tactic(auto)]

use rules::{Plan, Verdict};

// The last ten bytes of a file: the body's length, the version, the distance back from the file's end to the body, and the
// two bytes that every plan file ends with.
#[derive(Clone, Copy)]
pub struct Trailer {
    pub size: u16,
    pub version: u16,
    pub back: u32,
    pub mark: u16,
}

// A part of a file: where it starts, and how many bytes it has.
#[derive(Clone, Copy)]
pub struct Span {
    pub start: usize,
    pub len: usize,
}

// Stays: a verdict beside a plan, and no `Result`: "a refused file gives an all-zero plan" (`read_answer`).
#[derive(Clone, Copy)]
pub struct ReadAnswer {
    pub verdict: Verdict,
    pub plan: Plan,
}

// What the writer answers: the verdict, and how many bytes it wrote.
// Stays: a verdict beside a length, and no `Result`: a refusal answers the length 0 too (`write_answer`).
#[derive(Clone, Copy)]
pub struct WriteAnswer {
    pub verdict: Verdict,
    pub length: usize,
}
