// Document 01's finder: the type here, definitions and theorems in specs/. The functions that find stand in `finder`.
#![tactic(auto)]

// A part of the file or of the roll: where it starts, and how many bytes it has.
// Stays: no `Span` in either case: `piece_for`, `Within` and `Lies` take a case's start and length, and a step more is no plainer.
#[derive(Clone, Copy)]
pub enum Piece {
    InFile { start: usize, len: usize },
    InRoll { start: usize, len: usize },
}
