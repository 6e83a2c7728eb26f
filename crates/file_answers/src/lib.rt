// What a plan file's reader and its writer answer, apart from the bytes: the plan beside a verdict, and whether a plan is
// written. It takes any verdict, any plan and any room; no function here has a `requires`.
#![tactic(auto)]

ghost use Rattle.std.specs.Prelude.{◌≡◌};
ghost use Rattle.planfile_rules.specs.File.{empty_plan, answer_of};
ghost use Rattle.planfile_rules.specs.Writing.{room_verdict, write_verdict};

use planfile_rules::ReadAnswer;
use rules::{Plan, Verdict};
use trailer::refusal;

#[tactic(auto, unfolding(planfile_rules::specs::File::empty_plan, laws::specs::Lists::tabulate))]
pub fn empty_plan() -> Plan
    ensures { result ≡ empty_plan }
{
    Plan::default()
}

// A verdict beside the plan that was read, or beside an all-zero plan where it refuses.
#[tactic(auto, unfolding(planfile_rules::specs::File::answer_of))]
pub fn answer(verdict: Verdict, plan: Plan) -> ReadAnswer
    ensures { result ≡ answer_of verdict plan }
{
    let plan = match verdict {
        Ok(()) => plan,
        Err(_) => empty_plan(),
    };
    ReadAnswer { verdict, plan }
}

// 20 where a buffer of so many bytes is shorter than the file of n devices.
fn room_verdict(n: u16, room: usize) -> Verdict
    ensures { result ≡ room_verdict n room }
{
    if room < 18 + 12 * usize::from(n) {
        return refusal(20);
    }
    Ok(())
}

#[tactic(auto, unfolding(planfile_rules::specs::Writing::write_verdict))]
pub fn write_verdict(p: Plan, room: usize) -> Verdict
    ensures { result ≡ write_verdict p room }
{
    plan::check(p).and(room_verdict(p.N, room))
}
