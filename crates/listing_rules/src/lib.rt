// Document 01's "Worked yards", what the program prints: types here, definitions and theorems in specs/. The text is made in
// `listing`.
#![tactic(auto)]

use rules::{Verdict, Yard};

// What a listing answers: the yard at the end of the ticks done, how many these are, and the length of their lines.
// Stays: a verdict beside values, and no `Result`: a refusal answers the yard that it was given, 0 ticks, length 0 (`list_answer`).
#[derive(Clone, Copy)]
pub struct Listed {
    pub verdict: Verdict,
    pub yard: Yard,
    pub ticks: usize,
    pub length: usize,
}
