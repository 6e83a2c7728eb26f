// The fields of a line, each laid with a space before it where the pen stands. What has no room is cut off, as in `text`: none of
// these has a `requires`. Whole lines stand in `line`.
#![tactic(auto)]

ghost use Rattle.std.specs.Prelude.{◌≡◌, [], ◌∷◌, ◌++◌, ◌-◌, get_or};
ghost use Rattle.laws.specs.Lists.{tabulate};
ghost use Rattle.text_rules.specs.Decimal.{decimal};
ghost use Rattle.text.specs.Lays.{Lays};
ghost use Rattle.rules.specs.Yard.{fresh_device};
ghost use Rattle.listing_rules.specs.Text.{sup_text, place_sign, place_text, mark, down_text, spaced};

use rules::{Base, Device, Down, Place};
use text::Pen;

// A field of one byte.
#[tactic(auto, using(text::proofs::Pens::and_then))]
pub fn short(b: u8, pen: &mut Pen<'_>)
    ensures { Lays pen.old (32 ∷ b ∷ []) pen.new }
{
    pen.byte(b' ');
    pen.byte(b);
}

// A field that is a letter with a device's number.
fn with_index(b: u8, i: u8, pen: &mut Pen<'_>)
    ensures { Lays pen.old (32 ∷ b ∷ decimal i) pen.new }
{
    short(b, pen);
    pen.number(usize::from(i));
}

pub fn supervisor(base: Base, pen: &mut Pen<'_>)
    ensures { Lays pen.old (32 ∷ sup_text base) pen.new }
{
    match base {
        Base::FallBack => short(b'F', pen),
        Base::Lease(i) => with_index(b'L', i, pen),
        Base::Cancel(i) => with_index(b'C', i, pen),
        Base::Abort(i) => with_index(b'A', i, pen),
    }
}

fn place_byte(place: Place) -> u8
    ensures { result ≡ place_sign place }
{
    match place {
        Place::FallBack => b'F',
        Place::Requesting => b'Q',
        Place::Entering => b'E',
        Place::Running => b'R',
        Place::Exiting1 => b'X',
        Place::Exiting2 => b'Y',
    }
}

// Where device k + 1 stands; a device past the eighth is a fresh one.
fn place_at(devices: [Device; 8], k: usize) -> Place
    ensures { result ≡ (get_or devices k fresh_device).place }
{
    devices.get(k).map_or(Place::FallBack, |d| d.place)
}

// The first n devices, those past the eighth fresh.
pub fn places(n: u16, devices: [Device; 8], pen: &mut Pen<'_>)
    ensures { Lays pen.old (spaced (tabulate (λ i. place_text (get_or devices (i - 1) fresh_device).place) n)) pen.new }
{
    // Stays: by number: n may pass the eight devices, and those behind them are fresh ones.
    for k in 0..usize::from(n) {
        short(place_byte(place_at(devices, k)), pen);
    }
}

// A letter that was sent, with its device and, if it was lost, the mark.
fn marked(b: u8, i: u8, lost: bool, pen: &mut Pen<'_>)
    ensures { Lays pen.old (32 ∷ b ∷ decimal i ++ mark lost) pen.new }
{
    with_index(b, i, pen);
    if lost {
        pen.byte(b'!');
    }
}

// The down letter of a tick; where there is none nothing is marked, whatever the record says of its loss.
pub fn letter(down: Option<Down>, lost: bool, pen: &mut Pen<'_>)
    ensures { Lays pen.old (32 ∷ down_text down lost) pen.new }
{
    match down {
        None => short(b'-', pen),
        Some(Down::LeaseReq(i)) => marked(b'Q', i, lost, pen),
        Some(Down::Grant(i)) => marked(b'G', i, lost, pen),
        Some(Down::Cancel(i)) => marked(b'C', i, lost, pen),
        Some(Down::Abort(i)) => marked(b'A', i, lost, pen),
    }
}
