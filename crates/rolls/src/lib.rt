// A roll of records: how many it has, where they start, the record at a place, and whether records are valid (refusal 10). The
// width of a record stands here alone. No public function here has a `requires`.
#![tactic(auto)]

ghost use Rattle.std.specs.Prelude.{◌≡◌, ◌-◌, min};
ghost use Rattle.rules.specs.declared.Plan.{Plan};
ghost use Rattle.rules.specs.Tick.Input.{valid_record};
ghost use Rattle.rules.specs.Run.{records, left_over, ticks_to_do, record_start, record_at, first_bad};
ghost use Rattle.rolls.specs.Bounds.{Bound};

use numbers::read::byte_at;
use rules::{CANCEL, Plan, Record};

pub const RECORD_SIZE: usize = 4;

pub fn records(roll: &[u8]) -> usize
    ensures { result ≡ records roll.now }
{
    roll.len() / RECORD_SIZE
}

// The bytes behind the last whole record.
pub fn left_over(roll: &[u8]) -> usize
    ensures { result ≡ left_over roll.now }
{
    roll.len() % RECORD_SIZE
}

// The ticks that a run is to do: the smaller of budget and records.
pub fn ticks_to_do(roll: &[u8], budget: usize) -> usize
    ensures { result ≡ ticks_to_do roll.now budget }
{
    budget.min(records(roll))
}

// Where record k starts, counted from 0; from the last on, where that one ends.
pub fn record_start(roll: &[u8], k: usize) -> usize
    ensures { result ≡ record_start (min k (records roll.now)) }
{
    RECORD_SIZE * k.min(records(roll))
}

// What stands behind the last whole record: the bytes left over, and then zeros.
#[tactic(auto, unfolding(rules::specs::Run::record_at))]
fn record_left_over(roll: &[u8]) -> Record
    ensures { result ≡ record_at roll.now (records roll.now) }
{
    let at = RECORD_SIZE * records(roll);
    Record {
        command: byte_at(roll, at),
        flags: byte_at(roll, at + 1),
        willing: byte_at(roll, at + 2),
        lost: byte_at(roll, at + 3),
    }
}

// The record at k, counted from 0; beyond the roll's end all are zero.
#[tactic(auto, using(crate::proofs::Far::far_record), unfolding(rules::specs::Run::record_at))]
pub fn record_at(roll: &[u8], k: usize) -> Record
    ensures { result ≡ record_at roll.now k }
{
    let count = records(roll);
    // Stays: the four bytes by index; as a pattern on the part of the roll that begins there, a run took a sixth longer.
    if k < count {
        let at = RECORD_SIZE * k;
        return Record {
            command: roll[at],
            flags: roll[at + 1],
            willing: roll[at + 2],
            lost: roll[at + 3],
        };
    }
    if k == count {
        return record_left_over(roll);
    }
    Record::default()
}

// The bytes whose bits k and up are zero are those below this: all of them from k = 8 on.
// Stays: 256 shifted down; with 1 shifted up to min k 8 a run took a tenth longer.
#[tactic(auto, using(crate::proofs::Bounds::is_bound))]
fn bound(k: u16) -> u16
    ensures { Bound k result }
{
    256 >> 8u16.saturating_sub(k)
}

// Whether a record is valid, by the bounds of its last two bytes, which depend on the plan alone.
fn within(willing: u16, lost: u16, r: Record) -> bool
    ensures { (p : Plan) → Bound (p.N - 1) willing → Bound p.N lost → result ≡ valid_record p r }
{
    (r.command <= CANCEL)
        & (r.flags < 4)
        & (u16::from(r.willing) < willing)
        & (u16::from(r.lost) < lost)
}

pub fn valid_record(p: Plan, r: Record) -> bool
    ensures { result ≡ valid_record p r }
{
    within(bound(p.N.saturating_sub(1)), bound(p.N), r)
}

// The first record of a roll that this plan's yard does not take, counted from 0; the number of its records where it takes
// them all. Bytes left over behind the last whole record are not looked at.
pub fn first_bad(p: Plan, roll: &[u8]) -> usize
    ensures { result ≡ first_bad p roll.now }
{
    let willing = bound(p.N.saturating_sub(1));
    let lost = bound(p.N);
    let count = records(roll);
    // Stays: the number of records for none, and no `Option`: so says `first_bad` of the rules, which `roll_verdict` rests on.
    // Stays: by number, as `record_at` is asked.
    for k in 0..count {
        if !within(willing, lost, record_at(roll, k)) {
            return k;
        }
    }
    count
}
