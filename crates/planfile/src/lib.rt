// The plan file's reader and writer: document 01's "The plan file", and document 02's request 01. They take any bytes, any
// plan and any buffer; no public function here has a `requires`.
//
// The trailer, at the file's end, is read as numbers and judged as numbers. Only when it is taken is the body, a part of the
// file from wherever the trailer says, handed on to be read.
#![tactic(auto)]

ghost use Rattle.std.specs.Prelude.{◌≡◌, ◌+◌, ◌*◌, ◌≤◌, length, take, Ok};
ghost use Rattle.std.specs.Result.{result_and};
ghost use Rattle.rules.specs.Verdict as verdict;
ghost use Rattle.planfile_rules.specs.File.{trailer_of, trailer_verdict, plan_in, body_verdict, answer_of, read_answer, body_span};
ghost use Rattle.planfile_rules.specs.Writing.{file_bytes, write_answer, write_buffer, ReadAs, WithoutNotes};

use bodies::{plan_in, put_body};
use file_answers::{answer, empty_plan, write_verdict};
use numbers::read::two_at;
use planfile_rules::{ReadAnswer, Span, WriteAnswer};
use rules::{Plan, Refusal};
use trailer::{devices_for, judge, put_trailer, refusal, trailer_for, trailer_of};

// The verdict on a body that has room for n devices, beside its plan.
// Stays: n and its room in a `requires`, as in `bodies::put_slots`: a type that holds them would serve this one function.
// Stays: as `Result<Plan, Refusal>`, with n beside the place in `body_place`, it is proved, but read-2 is a tenth slower.
#[tactic(auto, using(bodies::proofs::Rooms::is_read, planfile_rules::proofs::Files::body_refused, planfile_rules::proofs::Files::body_checked))]
fn read_body(body: &[u8], n: u16) -> ReadAnswer
    requires { (n ≤ 8) × (8 + 12 * n ≤ length body.now) }
    ensures { result ≡ answer_of (body_verdict n body.now) (plan_in n body.now) }
{
    let named = two_at(body, 0);
    if named != n {
        return answer(refusal(19), empty_plan());
    }
    let plan = plan_in(body, usize::from(n));
    answer(plan::check(plan), plan)
}

// Where a file's body lies, if its trailer is taken.
#[tactic(auto, using(planfile_rules::proofs::Files::starts_within, planfile_rules::proofs::Files::taken_span))]
fn body_place(file: &[u8]) -> Result<Span, Refusal>
    ensures { result ≡ result_and (trailer_verdict (length file.now) (trailer_of file.now)) (Ok (body_span file.now)) }
{
    let t = trailer_of(file);
    judge(file.len(), t)?;
    let start = file.len() - t.back as usize;
    Ok(Span {
        start,
        len: usize::from(t.size),
    })
}

// The verdict on a file beside the plan that it holds. A refused file gives an all-zero plan. Writing what was read from a
// file without notes gives its bytes back.
pub fn read(file: &[u8]) -> ReadAnswer
    ensures value { result ≡ read_answer file.now }
    ensures written_back { result.verdict ≡ verdict.Accepted → WithoutNotes file.now → file_bytes result.plan ≡ file.now }
{
    match body_place(file) {
        Ok(Span { start, len }) => read_body(&file[start..start + len], devices_for(len as u16)),
        Err(refused) => answer(Err(refused), empty_plan()),
    }
}

// Where a file's body lies, for whoever wants to show it; nothing at 0 where its trailer is not taken.
// Stays: no `Option<Span>`: the definition `body_span` answers for every file, and the finder's `file_start` rests on that.
pub fn body_span(file: &[u8]) -> Span
    ensures { result ≡ body_span file.now }
{
    body_place(file).unwrap_or(Span { start: 0, len: 0 })
}

// Writes an accepted plan as a file, at the front of a buffer: body first, trailer straight after it, no notes. The answer
// has the length written; bytes past that stay. A refusal writes no byte, and answers 0. Reading what was written gives the
// plan back.
pub fn write(p: Plan, file: &mut [u8]) -> WriteAnswer
    ensures value { result ≡ write_answer p (length file.old) }
    ensures file_after { file.new ≡ write_buffer p file.old }
    ensures read_as { result.verdict ≡ verdict.Accepted → ReadAs (take result.length file.new) p }
{
    let v = write_verdict(p, file.len());
    let Ok(()) = v else {
        return WriteAnswer {
            verdict: v,
            length: 0,
        };
    };
    let n = usize::from(p.N);
    let size = put_body(p, n, file);
    put_trailer(trailer_for(p.N as u8), file, size);
    WriteAnswer {
        verdict: v,
        length: size + 10,
    }
}
