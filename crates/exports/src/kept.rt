// What a call leaves in the yard's or the plan's bytes: something new only where nothing is refused.
ghost use Rattle.std.specs.Prelude.{◌≡◌, ℕ, List, length};
ghost use Rattle.rules.specs.Verdict.{Accepted, if_accepted};
ghost use Rattle.planfile_rules.specs.File.{plan_size};
ghost use Rattle.planfile_rules.specs.Writing.{plan_bytes};
ghost use Rattle.layout_rules.specs.Bytes.{yard_bytes, yard_size};

use rules::{Plan, Verdict, Yard};

// What callers lend as bytes, and a call may put in their place.
pub(crate) trait Lent {
    // How many bytes it takes, and which.
    ghost size: { ℕ };

    ghost bytes: { Self → List ℕ };

    fn put(self, out: &mut [u8])
        requires { length out.old ≡ size }
        ensures { out.new ≡ bytes self };
}

impl Lent for Yard {
    ghost size = { yard_size };

    ghost bytes = { yard_bytes };

    fn put(self, out: &mut [u8]) {
        layout::yard::put(self, out);
    }
}

impl Lent for Plan {
    ghost size = { plan_size };

    ghost bytes = { plan_bytes };

    fn put(self, out: &mut [u8]) {
        bodies::put_whole_plan(self, out);
    }
}

// The yard that a call has moved, or the plan that it has read, takes the place of the one that it was lent; a call that is
// refused leaves that as it is.
pub(crate) fn keep<T: Lent + Drop>(v: Verdict, x: T, out: &mut [u8])
    requires { v ≡ Accepted → length out.old ≡ T.size }
    ensures { out.new ≡ if_accepted v (T.bytes x) out.old }
{
    if let Ok(()) = v {
        x.put(out);
    }
}
