// Places, letters, bases, down letters and verdicts by number: the vocabulary that comparisons, bytes and text share. A number
// that stands for nothing is read as the first place, the first base, or no letter; callers that must tell have looked before. No function here has
// a `requires`.
// Stays: no `From`: DECISIONS 44, numbers stand beside the types in definitions, and code that reads and writes them stands here.
// Stays: no `TryFrom`: the contracts of `place_of`, `letter_of` and `base_of` take every number, and it would answer for less.
#![tactic(auto)]

ghost use Rattle.std.specs.Prelude.{◌≡◌};
ghost use Rattle.rules.specs.Verdict.{number_of, index_of, refused_if};
ghost use Rattle.rules.specs.Numbers.{place_number, place_of, letter_number, letter_of, base_number, base_index, base_of, down_number, down_index};

use rules::{Base, Down, Letter, Place, Refusal, Verdict};

pub fn place_number(place: Place) -> u8
    ensures { result ≡ place_number place }
{
    place as u8
}

#[tactic(auto, unfolding(rules::specs::Numbers::place_of))]
pub fn place_of(number: u8) -> Place
    ensures { result ≡ place_of number }
{
    match number {
        1 => Place::Requesting,
        2 => Place::Entering,
        3 => Place::Running,
        4 => Place::Exiting1,
        5 => Place::Exiting2,
        _ => Place::FallBack,
    }
}

pub fn letter_number(letter: Option<Letter>) -> u8
    ensures { result ≡ letter_number letter }
{
    match letter {
        None => 0,
        Some(Letter::Request) => 1,
        Some(Letter::Cancel) => 2,
        Some(Letter::Approve) => 3,
        Some(Letter::Deny) => 4,
        Some(Letter::Exit) => 5,
    }
}

#[tactic(auto, unfolding(rules::specs::Numbers::letter_of))]
pub fn letter_of(number: u8) -> Option<Letter>
    ensures { result ≡ letter_of number }
{
    match number {
        1 => Some(Letter::Request),
        2 => Some(Letter::Cancel),
        3 => Some(Letter::Approve),
        4 => Some(Letter::Deny),
        5 => Some(Letter::Exit),
        _ => None,
    }
}

pub fn base_number(base: Base) -> u8
    ensures { result ≡ base_number base }
{
    match base {
        Base::FallBack => 0,
        Base::Lease(_) => 1,
        Base::Cancel(_) => 2,
        Base::Abort(_) => 3,
    }
}

// The device of the base's place; 0 for none.
// Stays: 0 and no `Option`, here and in `down_index`: so the definitions of these names answer, and the number crosses to C.
pub fn base_index(base: Base) -> u8
    ensures { result ≡ base_index base }
{
    match base {
        Base::FallBack => 0,
        Base::Lease(i) | Base::Cancel(i) | Base::Abort(i) => i,
    }
}

#[tactic(auto, unfolding(rules::specs::Numbers::base_of))]
pub fn base_of(number: u8, i: u8) -> Base
    ensures { result ≡ base_of number i }
{
    match number {
        1 => Base::Lease(i),
        2 => Base::Cancel(i),
        3 => Base::Abort(i),
        _ => Base::FallBack,
    }
}

pub fn down_number(l: Option<Down>) -> u8
    ensures { result ≡ down_number l }
{
    match l {
        None => 0,
        Some(Down::LeaseReq(_)) => 1,
        Some(Down::Grant(_)) => 2,
        Some(Down::Cancel(_)) => 3,
        Some(Down::Abort(_)) => 4,
    }
}

// The device that a down letter is for; 0 for none.
pub fn down_index(l: Option<Down>) -> u8
    ensures { result ≡ down_index l }
{
    match l {
        None => 0,
        Some(Down::LeaseReq(i) | Down::Grant(i) | Down::Cancel(i) | Down::Abort(i)) => i,
    }
}

// A verdict's number and index; 0 at 0 for one that is not a refusal.
// Stays: two functions of one shape: document 01's answer is two numbers, and the finder takes the number alone.
pub fn number_of(v: Verdict) -> u8
    ensures { result ≡ number_of v }
{
    match v {
        Ok(()) => 0,
        Err(refusal) => refusal.number,
    }
}

pub fn index_of(v: Verdict) -> usize
    ensures { result ≡ index_of v }
{
    match v {
        Ok(()) => 0,
        Err(refusal) => refusal.index,
    }
}

// Refused by that number at that index where the test holds.
pub fn refused_if(test: bool, number: u8, index: usize) -> Verdict
    ensures { result ≡ refused_if test number index }
{
    if test {
        return Err(Refusal { number, index });
    }
    Ok(())
}
