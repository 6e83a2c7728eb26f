// Whether a tick, a roll or a run is refused, before anything moves: plan, state, then what is to be done. No function here has a
// `requires`.
#![tactic(auto)]

ghost use Rattle.std.specs.Prelude.{◌≡◌, [], ◌∷◌, ltb};
ghost use Rattle.rules.specs.Verdict.{refused_if, first_refusal};
ghost use Rattle.rules.specs.Table.{plan_verdict};
ghost use Rattle.rules.specs.Yard.{state_verdict};
ghost use Rattle.rules.specs.Tick.{tick_verdict};
ghost use Rattle.rules.specs.Run.{roll_verdict};

use rolls::{first_bad, left_over, records, valid_record};
use rules::{Plan, Record, Verdict, Yard};
use vocabulary::refused_if;

// Stays: plan, state and roll side by side, here and in all calls above: so document 01's calls take them.
// Is this state refused under this plan? The plan's own refusals (1 to 9), then 11 at 0.
#[tactic(auto, unfolding(rules::specs::Verdict::first_refusal, rules::specs::Yard::state_verdict))]
fn state_verdict(p: Plan, y: Yard) -> Verdict
    ensures { result ≡ first_refusal (plan_verdict p ∷ state_verdict p y ∷ []) }
{
    plan::check(p)?;
    refused_if(!state::well_formed(p, y), 11, 0)
}

// Is this tick refused? Plan (1 to 9), state (11 at 0), record (10 at 1).
#[tactic(auto, unfolding(rules::specs::Verdict::first_refusal, rules::specs::Tick::Input::record_verdict, rules::specs::Tick::tick_verdict))]
pub fn tick_verdict(p: Plan, y: Yard, r: Record) -> Verdict
    ensures { result ≡ tick_verdict p y r }
{
    state_verdict(p, y)?;
    refused_if(!valid_record(p, r), 10, 1)
}

// Is this roll refused? Plan (1 to 9), state (11 at 0), the roll's length (12 at 0), its first bad record (10 at its number
// from 1).
#[tactic(auto, using(laws::proofs::Tests::lowest_most), unfolding(rules::specs::Verdict::first_refusal, rules::specs::Run::records_verdict, rules::specs::Run::roll_verdict))]
pub fn roll_verdict(p: Plan, y: Yard, roll: &[u8]) -> Verdict
    ensures { result ≡ roll_verdict p y roll.now }
{
    state_verdict(p, y)?;
    refused_if(left_over(roll) != 0, 12, 0)?;
    let bad = first_bad(p, roll);
    refused_if(bad < records(roll), 10, bad + 1)
}

// Is this run refused? As its roll is, then 13 at 0 where `room`, the buffer's length, is too little for the ticks to do.
#[tactic(auto, unfolding(rules::specs::Verdict::first_refusal))]
pub fn run_verdict(p: Plan, y: Yard, roll: &[u8], ticks: usize, room: usize) -> Verdict
    ensures { result ≡ first_refusal (roll_verdict p y roll.now ∷ refused_if (ltb room ticks) 13 0 ∷ []) }
{
    roll_verdict(p, y, roll)?;
    refused_if(room < ticks, 13, 0)
}
