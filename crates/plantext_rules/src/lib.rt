// A plan as text, for crews: types here, definitions and theorems in specs/. Its reader and its writer are not written yet.
#![tactic(auto)]

use rules::{Plan, Verdict};

// Where a reader stands in a text.
#[derive(Clone, Copy)]
pub enum Stand {
    // At the start of a line.
    LineStart,
    // In a line that starts with '#'.
    Comment,
    // Behind a field's letter.
    Name,
    // Behind the blanks that follow a field's letter.
    Wait,
    // In a number.
    Number,
    // Behind the blanks that follow a number.
    Gap,
    // Behind a CR.
    Return,
    // Behind a byte that cannot stand where it does.
    Refused,
}

// The line, counted from 1, and whose it is: the yard's (0), device i's; which of its fields is being read, and what has been
// read of that field's number.
// Stays: 0 for the yard and a number for a field: so the definitions of reading count them (`specs/Reading.antt`).
#[derive(Clone, Copy)]
pub struct Cursor {
    pub stand: Stand,
    pub line: usize,
    pub device: usize,
    pub field: usize,
    pub digits: u8,
    pub value: u32,
}

// What has been read: how far, and the plan so far.
#[derive(Clone, Copy)]
pub struct Reader {
    pub cursor: Cursor,
    pub plan: Plan,
}

// Stays: a verdict beside a plan, and no `Result`: a refused text gives an all-zero plan (`text_answer`).
#[derive(Clone, Copy)]
pub struct TextAnswer {
    pub verdict: Verdict,
    pub plan: Plan,
}
