// The finder: of a plan file and a roll, the bytes that are refused. It takes any two lent slices, and names a part of one of
// them by numbers, or hands that part back; no public function here has a `requires`.
#![tactic(auto)]

ghost use Rattle.std.specs.Prelude.{◌≡◌, ◌+◌, ◌-◌, ◌≤◌, min, length};
ghost use Rattle.finder_rules.specs.declared.Piece.TheVariants.{InFile, InRoll};
ghost use Rattle.finder_rules.specs.Piece.{PartOf, Lies, file_start, file_length, roll_start, roll_length, piece};

use finder_rules::Piece;
use planfile_rules::Span;
use rolls::{RECORD_SIZE, first_bad, left_over, record_start, records};
use rules::Plan;
use vocabulary::number_of;

// The last ten bytes of a file of len bytes; all of a shorter one.
fn last_ten(len: usize) -> Piece
    ensures { result ≡ InFile (len - 10) (min 10 len) }
{
    Piece::InFile {
        start: len.saturating_sub(10),
        len: len.min(10),
    }
}

// The refused piece of a file that is refused with this number.
#[tactic(auto, unfolding(finder_rules::specs::Piece::file_start, finder_rules::specs::Piece::file_length))]
fn file_piece(file: &[u8], number: u8) -> Piece
    ensures { result ≡ InFile (file_start file.now number) (file_length file.now number) }
{
    if number < 10 {
        let Span { start, len } = planfile::body_span(file);
        return Piece::InFile { start, len };
    }
    last_ten(file.len())
}

// The refused piece of a roll; where nothing is refused, the empty part at its end.
#[tactic(auto, unfolding(finder_rules::specs::Piece::roll_start, finder_rules::specs::Piece::roll_length))]
fn roll_piece(p: Plan, roll: &[u8]) -> Piece
    ensures { result ≡ InRoll (roll_start p roll.now) (roll_length p roll.now) }
{
    let left = left_over(roll);
    if left != 0 {
        let start = record_start(roll, records(roll));
        return Piece::InRoll { start, len: left };
    }
    let bad = first_bad(p, roll);
    if bad < records(roll) {
        let start = record_start(roll, bad);
        let len = RECORD_SIZE;
        return Piece::InRoll { start, len };
    }
    Piece::InRoll {
        start: roll.len(),
        len: 0,
    }
}

// Of a file and a roll, the refused piece of whichever is at fault: the last ten bytes of the file (all, if shorter) for 14 to
// 19; the body for 2 to 9; the 1 to 3 leftover bytes of the roll for 12; the four bytes for 10; otherwise the empty part at
// the roll's end. It gives no number of a refusal: for that, read the file and run the roll.
#[tactic(auto, unfolding(finder_rules::specs::Piece::piece))]
pub fn locate(file: &[u8], roll: &[u8]) -> Piece
    ensures { result ≡ piece file.now roll.now }
{
    let answer = planfile::read(file);
    // Stays: `let .. else`, and the number from the verdict: document 01's form for this place, before the roll is looked at.
    let Ok(()) = answer.verdict else {
        return file_piece(file, number_of(answer.verdict));
    };
    roll_piece(answer.plan, roll)
}

// The n bytes of s from start.
fn part(s: &[u8], start: usize, n: usize) -> &[u8]
    requires { start + n ≤ length s.now }
    ensures { PartOf result s.entry start n }
{
    &s[start..start + n]
}

// The bytes of the piece that `locate` names, as a part of the file or of the roll that was lent.
pub fn find<'a>(file: &'a [u8], roll: &'a [u8]) -> &'a [u8]
    ensures { Lies result file.entry roll.entry (piece file.now roll.now) }
{
    match locate(file, roll) {
        Piece::InFile { start, len } => part(file, start, len),
        Piece::InRoll { start, len } => part(roll, start, len),
    }
}
