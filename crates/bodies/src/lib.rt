// The body of a plan file, and the plan that it holds: N, W, B, Q, then six times for each device, two bytes each. It is read and
// written here, and not judged. It takes any bytes, any plan, any number of devices and any buffer; no public function here has
// a `requires`.
#![tactic(auto)]

ghost use Rattle.std.specs.Prelude.{◌≡◌, ◌++◌, ◌+◌, ◌*◌, ◌≤◌, length, drop};
ghost use Rattle.laws.specs.Written.{Written};
ghost use Rattle.planfile_rules.specs.File.{slots_in, plan_in, body_fits, plan_for, whole_plan};
ghost use Rattle.planfile_rules.specs.Writing.{slots_bytes, body_written, plan_written};

use file_answers::empty_plan;
use numbers::read::two_at;
use numbers::write::put_two;
use rules::{Plan, Slot};
use slots::{SLOT_SIZE, put_slot, slot_in};

// N, W, B and Q, before the first slot.
const HEAD_SIZE: usize = 8;

// Whether so many bytes have room for a body of n devices.
#[tactic(auto, using(crate::proofs::Rooms::too_many, crate::proofs::Rooms::few))]
fn has_room(n: usize, room: usize) -> bool
    ensures { result ≡ body_fits n room }
{
    n <= 8 && HEAD_SIZE + SLOT_SIZE * n <= room
}

// The bytes of a body, and how many devices have room in them.
#[derive(Clone, Copy)]
struct Body<'a> {
    bytes: &'a [u8],
    n: usize,
    ghost few: { n ≤ 8 },
    ghost room: { 8 + 12 * n ≤ length bytes.now },
}

impl Body<'_> {
    // The slots of its devices; those above n stay all zero. Each is read from a part that is just its own: that is twelve bytes
    // long whatever the body is, so that the tests of bounds within it drop out.
    // Stays: an index: `chunks_exact` would need the cut `[HEAD_SIZE..HEAD_SIZE + SLOT_SIZE * n]` first, and a `zip` after it.
    fn slots(&self) -> [Slot; 8]
        ensures { result ≡ slots_in self.now.n self.now.bytes.now }
    {
        let mut slots = empty_plan().slots;
        for k in 0..self.n {
            let at = HEAD_SIZE + SLOT_SIZE * k;
            slots[k] = slot_in(&self.bytes[at..at + SLOT_SIZE]);
        }
        slots
    }

    #[tactic(auto, unfolding(planfile_rules::specs::File::plan_in))]
    fn plan(&self) -> Plan
        ensures { result ≡ plan_in self.now.n self.now.bytes.now }
    {
        Plan {
            N: two_at(self.bytes, 0),
            W: two_at(self.bytes, 2),
            B: two_at(self.bytes, 4),
            Q: two_at(self.bytes, 6),
            slots: self.slots(),
        }
    }
}

// The plan in a body of n devices, or an all-zero plan where these have no room in it. It is not checked.
// Stays: no `Option`, here and in `whole_plan`: the definitions answer an all-zero plan, which no check takes.
#[tactic(auto, using(crate::proofs::Rooms::enough), unfolding(planfile_rules::specs::File::plan_for))]
pub fn plan_in(body: &[u8], n: usize) -> Plan
    ensures { result ≡ plan_for n body.now }
{
    if !has_room(n, body.len()) {
        return empty_plan();
    }
    Body { bytes: body, n }.plan()
}

// The slots of the first n devices, each where a body has it, and written into a part that is just its own.
// Stays: two facts in a `requires`, here and in `planfile::read_body`: `Body` serves two methods, a type here would serve one
// function. And an index, as in `slots`.
fn put_slots(slots: [Slot; 8], n: usize, out: &mut [u8])
    requires { (n ≤ 8) × (8 + 12 * n ≤ length out.old) }
    ensures { Written out.old 8 (slots_bytes slots n) out.new (8 + 12 * n) × (length slots ≡ 8) }
{
    for j in 0..n {
        let at = HEAD_SIZE + SLOT_SIZE * j;
        put_slot(slots[j], &mut out[at..at + SLOT_SIZE]);
    }
}

// A body of n devices, at the front of a buffer; the answer is how many bytes were written, none where it has no room. That a
// plan has eight slots is what its type says; whoever reads the body back wants to know it.
#[tactic(auto, using(laws::proofs::Writes::nothing, crate::proofs::Rooms::enough), unfolding(planfile_rules::specs::Writing::body_written))]
pub fn put_body(p: Plan, n: usize, out: &mut [u8]) -> usize
    ensures written { Written out.old 0 (body_written p n (length out.old)) out.new result }
    ensures eight_slots { length p.slots ≡ 8 }
{
    if !has_room(n, out.len()) {
        return 0;
    }
    put_two(p.N, out, 0);
    put_two(p.W, out, 2);
    put_two(p.B, out, 4);
    put_two(p.Q, out, 6);
    put_slots(p.slots, n, out);
    HEAD_SIZE + SLOT_SIZE * n
}

pub const PLAN_SIZE: usize = HEAD_SIZE + 8 * SLOT_SIZE;

// The plan in so many bytes: a body with all eight slots, those above N included, as callers in other languages lend it. It is
// not checked. Of another length, an all-zero plan, which the check refuses.
#[tactic(auto, unfolding(planfile_rules::specs::File::whole_plan, planfile_rules::specs::File::plan_for))]
pub fn whole_plan(bytes: &[u8]) -> Plan
    ensures { result ≡ whole_plan bytes.now }
{
    if bytes.len() != PLAN_SIZE {
        return empty_plan();
    }
    plan_in(bytes, 8)
}

// Those bytes, at the front of a buffer; the answer is how many bytes were written, none in a shorter buffer. Later bytes
// keep their value.
#[tactic(auto, using(laws::proofs::Writes::at_front, crate::proofs::Rooms::within), unfolding(planfile_rules::specs::Writing::plan_written, planfile_rules::specs::Writing::body_written))]
pub fn put_whole_plan(p: Plan, out: &mut [u8]) -> usize
    ensures value { result ≡ length (plan_written p (length out.old)) }
    ensures out_after { out.new ≡ plan_written p (length out.old) ++ drop result out.old }
{
    put_body(p, 8, out)
}
