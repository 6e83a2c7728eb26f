// The answers of document 01's calls to plans and yards that are lent as bytes. A wrong length is refused before all else.
// `exports` hands them out as numbers and bytes. No function here has a `requires`.
#![tactic(auto)]

ghost use Rattle.std.specs.Prelude.{◌≡◌, ◌&&◌, length, take};
ghost use Rattle.rules.specs.Verdict.{Accepted};
ghost use Rattle.planfile_rules.specs.File.{whole_plan};
ghost use Rattle.planfile_rules.specs.Writing.{ReadAs};
ghost use Rattle.exports_rules.specs.Asked.{KeptBy, size_verdict, fits_plan, fits_yard, check_for, fresh_for, tick_for, run_for, engaged_for, read_for, write_for, file_for, list_for, text_for};

use answers::size_verdict;
use bodies::PLAN_SIZE;
use layout::yard::YARD_SIZE;
use listing_rules::Listed;
use planfile_rules::{ReadAnswer, WriteAnswer};
use rules::{FreshAnswer, Record, RunAnswer, TickAnswer, Verdict};

// 27 where a plan is lent at another length than its own, or a yard.
fn sizes(plan: &[u8], room: usize) -> Verdict
    ensures { result ≡ size_verdict (fits_plan (length plan.now) && fits_yard room) }
{
    size_verdict((plan.len() == PLAN_SIZE) & (room == YARD_SIZE))
}

#[tactic(auto, unfolding(exports_rules::specs::Asked::check_for))]
pub fn check_for(plan: &[u8]) -> Verdict
    ensures { result ≡ check_for plan.now }
{
    size_verdict(plan.len() == PLAN_SIZE)?;
    plan::check(bodies::whole_plan(plan))
}

#[tactic(auto, unfolding(exports_rules::specs::Asked::fresh_for, rules::specs::Yard::fresh_answer))]
pub fn fresh_for(plan: &[u8], room: usize) -> FreshAnswer
    ensures { result ≡ fresh_for plan.now room }
{
    let answer = yard::fresh(bodies::whole_plan(plan));
    FreshAnswer {
        verdict: sizes(plan, room).and(answer.verdict),
        ..answer
    }
}

// Stays: the lengths first, the yard read behind them, and by itself for a refusal: `exports` drops a refusal's yard, and only in
// this form does the compiler see that it need not be read (with the yard read before all else such a call took five times as long).
// Stays: `run_for` and `list_for` are alike, but one function for all would take two closures from each: the answer at right
// lengths, and how its own type says a refusal. That is all that they have. Plan and yard are lent as two slices, as C hands them.
#[tactic(auto, unfolding(exports_rules::specs::Asked::tick_for))]
pub fn tick_for(plan: &[u8], bytes: &[u8], r: Record) -> TickAnswer
    ensures { result ≡ tick_for plan.now bytes.now r }
{
    if let Err(refusal) = sizes(plan, bytes.len()) {
        return TickAnswer {
            verdict: Err(refusal),
            yard: yard_reading::read(bytes),
            down: None,
        };
    }
    yard::tick(bodies::whole_plan(plan), yard_reading::read(bytes), r)
}

#[tactic(auto, using(exports_rules::proofs::Sizes::nothing_done), unfolding(exports_rules::specs::Asked::run_for, exports_rules::specs::Asked::engaged_for))]
pub fn run_for(
    plan: &[u8],
    bytes: &[u8],
    roll: &[u8],
    budget: usize,
    engaged: &mut [u8],
) -> RunAnswer
    ensures value { result ≡ run_for plan.now bytes.now roll.now budget engaged.old }
    ensures engaged_after { engaged.new ≡ engaged_for plan.now bytes.now roll.now budget engaged.old }
    ensures kept { KeptBy plan.now bytes.now engaged.new result.ticks }
{
    if let Err(refusal) = sizes(plan, bytes.len()) {
        return RunAnswer {
            verdict: Err(refusal),
            yard: yard_reading::read(bytes),
            ticks: 0,
        };
    }
    yard::run(
        bodies::whole_plan(plan),
        yard_reading::read(bytes),
        roll,
        budget,
        engaged,
    )
}

#[tactic(auto, unfolding(exports_rules::specs::Asked::read_for))]
pub fn read_for(file: &[u8], room: usize) -> ReadAnswer
    ensures { result ≡ read_for file.now room }
{
    let answer = planfile::read(file);
    ReadAnswer {
        verdict: size_verdict(room == PLAN_SIZE).and(answer.verdict),
        ..answer
    }
}

#[tactic(auto, unfolding(exports_rules::specs::Asked::write_for, exports_rules::specs::Asked::file_for))]
pub fn write_for(plan: &[u8], file: &mut [u8]) -> WriteAnswer
    ensures value { result ≡ write_for plan.now (length file.old) }
    ensures file_after { file.new ≡ file_for plan.now file.old }
    ensures read_as { result.verdict ≡ Accepted → ReadAs (take result.length file.new) (whole_plan plan.now) }
{
    match size_verdict(plan.len() == PLAN_SIZE) {
        Ok(()) => planfile::write(bodies::whole_plan(plan), file),
        verdict => WriteAnswer { verdict, length: 0 },
    }
}

#[tactic(auto, unfolding(exports_rules::specs::Asked::list_for, exports_rules::specs::Asked::text_for))]
pub fn list_for(plan: &[u8], bytes: &[u8], roll: &[u8], first: u32, out: &mut [u8]) -> Listed
    ensures value { result ≡ list_for plan.now bytes.now roll.now first (length out.old) }
    ensures out_after { out.new ≡ text_for plan.now bytes.now roll.now first out.old }
{
    if let Err(refusal) = sizes(plan, bytes.len()) {
        return Listed {
            verdict: Err(refusal),
            yard: yard_reading::read(bytes),
            ticks: 0,
            length: 0,
        };
    }
    listing::list(
        bodies::whole_plan(plan),
        yard_reading::read(bytes),
        roll,
        first,
        out,
    )
}
