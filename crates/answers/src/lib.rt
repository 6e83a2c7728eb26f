// What crosses to C and Rust: a verdict as its number and index, a piece by three numbers. No function here has a `requires`.
#![tactic(auto)]

ghost use Rattle.std.specs.Prelude.{◌≡◌};
ghost use Rattle.exports_rules.specs.Asked.{size_verdict};
ghost use Rattle.exports_rules.specs.Calls.{Answered, which_of, start_of, length_of};

use finder_rules::Piece;
use rules::Verdict;
use vocabulary::{index_of, number_of, refused_if};

// A plan or a yard was lent at another length than its own.
#[tactic(auto, unfolding(exports_rules::specs::Asked::size_verdict))]
pub fn size_verdict(fits: bool) -> Verdict
    ensures { result ≡ size_verdict fits }
{
    refused_if(!fits, 27, 0)
}

// The number is answered, the index goes behind the reference.
pub fn answer(v: Verdict, index: &mut usize) -> u8
    ensures { Answered v result index.new }
{
    *index = index_of(v);
    number_of(v)
}

pub fn piece_slice(piece: Piece) -> u8
    ensures { result ≡ which_of piece }
{
    match piece {
        Piece::InFile { .. } => 0,
        Piece::InRoll { .. } => 1,
    }
}

// Stays: start and length by a function each (docs/CONTRACTS.md), as `wilatkhun_find` puts each behind its own reference.
pub fn piece_start(piece: Piece) -> usize
    ensures { result ≡ start_of piece }
{
    let (Piece::InFile { start, .. } | Piece::InRoll { start, .. }) = piece;
    start
}

pub fn piece_len(piece: Piece) -> usize
    ensures { result ≡ length_of piece }
{
    let (Piece::InFile { len, .. } | Piece::InRoll { len, .. }) = piece;
    len
}
