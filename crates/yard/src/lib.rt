// The yard's calls: a fresh yard, one tick, a run. No public function here has a `requires`.
#![tactic(auto)]

mod bits;
mod clocks;
mod engine;
mod rising;

ghost use Rattle.std.specs.Prelude.{◌≡◌};
ghost use Rattle.rules.specs.Verdict.{Accepted};
ghost use Rattle.rules.specs.Table.{plan_verdict};
ghost use Rattle.rules.specs.Yard.{fresh_yard, fresh_answer};
ghost use Rattle.rules.specs.Tick.{tick_answer};
ghost use Rattle.rules.specs.Run.{run_answer, run_buffer};
ghost use Rattle.rules.specs.Promises.{Kept, shown};

use engine::roll_on;
use refusals::{run_verdict, tick_verdict};
use rolls::ticks_to_do;
use rules::{FreshAnswer, Plan, Record, RunAnswer, TickAnswer, Yard};

// The verdict on the plan beside a fresh yard, which is the same for every plan, refused or not.
#[tactic(auto, unfolding(rules::specs::Yard::fresh_answer, rules::specs::Yard::fresh_yard))]
pub fn fresh(p: Plan) -> FreshAnswer
    ensures { result ≡ fresh_answer p }
{
    FreshAnswer {
        verdict: plan::check(p),
        yard: Yard::default(),
    }
}

// One tick. It is refused for its plan (1 to 9), then its state (11 at 0), then its record (10 at 1), and then answers the
// state it was given and no letter; otherwise the state at the tick's end and the down letter that it sent, lost or not.
pub fn tick(p: Plan, y: Yard, r: Record) -> TickAnswer
    ensures { result ≡ tick_answer p y r }
{
    let verdict = tick_verdict(p, y, r);
    let Ok(()) = verdict else {
        return TickAnswer {
            verdict,
            yard: y,
            down: None,
        };
    };
    // Stays: a record's bytes by hand, here and in `rolls`: a `From` would have to stand in `rules` (DECISIONS 44).
    let roll = [r.command, r.flags, r.willing, r.lost];
    let mut engaged = [0u8; 1];
    let s = roll_on(p, y, &roll, 1, &mut engaged);
    TickAnswer {
        verdict,
        yard: s.yard,
        down: s.down,
    }
}

// A run: the smaller of budget and records, from the state it is given. It is refused for its plan (1 to 9), its state
// (11 at 0), its roll's length (12 at 0), the first bad record of the whole roll (10 at its number from 1), its buffer
// (13 at 0), and then answers the state it was given and 0 ticks, and leaves the buffer as it is. Otherwise the buffer gets
// one byte a tick, bit i-1 set when device i is engaged at that tick's end, and later bytes keep their value.
// From a fresh yard under an accepted plan those bytes keep the promises: no stay is too long, and neighbours are nested
// with their spacing.
pub fn run(p: Plan, y: Yard, roll: &[u8], budget: usize, engaged: &mut [u8]) -> RunAnswer
    ensures value { result ≡ run_answer p y roll.now budget engaged.old }
    ensures engaged_after { engaged.new ≡ run_buffer p y roll.now budget engaged.old }
    ensures kept { plan_verdict p ≡ Accepted → y ≡ fresh_yard → Kept p (shown engaged.new) result.ticks }
{
    let ticks = ticks_to_do(roll, budget);
    let verdict = run_verdict(p, y, roll, ticks, engaged.len());
    let Ok(()) = verdict else {
        return RunAnswer {
            verdict,
            yard: y,
            ticks: 0,
        };
    };
    let s = roll_on(p, y, roll, ticks, engaged);
    RunAnswer {
        verdict,
        yard: s.yard,
        ticks,
    }
}
