// The conditions of document 01's table at one index: the yard's, or a slot's. It takes any numbers and any slots; no public
// function here has a `requires`.
//
// At each index the lines that are asked there are tried in the table's order. The answer is the first that is broken.
//
// Stays: `&` between tests, and not `&&`, with which a plan's check, timed alone, took a third more time.
#![tactic(auto)]

ghost use Rattle.std.specs.Prelude.{◌≡◌, ◌*◌};
ghost use Rattle.rules.specs.Plan.{is_time};
ghost use Rattle.conditions.specs.Lines.{size_holds, yard_times, device_times, pair_times, no_spacing, all_zero, c2_holds, c3_holds, c4_holds, c5_holds, c6_holds, c7_holds, yard_line, pair_line, last_line, unused_line, slot_line};

use lease::stay;
use rules::Slot;

// What the lines of the table hold a plan's other numbers against: how many devices it has, the wait W, and LS.
// Stays: not `rules::Terms`, whose N is a byte, as an accepted plan's is: here N may be any u16.
#[derive(Clone, Copy)]
pub struct Yardstick {
    pub n: u16,
    pub w: u16,
    pub ls: u32,
}

fn product(a: u16, b: u16) -> u32
    ensures { result ≡ a * b }
{
    u32::from(a) * u32::from(b)
}

// A time that a plan may hold.
#[tactic(auto, using(laws::proofs::Tests::all_is), unfolding(rules::specs::Plan::is_time))]
fn is_time(t: u16) -> bool
    ensures { result ≡ is_time t }
{
    (1..=36000).contains(&t)
}

fn size_holds(n: u16) -> bool
    ensures { result ≡ size_holds n }
{
    (2..=8).contains(&n)
}

fn yard_times(w: u16, b: u16, q: u16) -> bool
    ensures { result ≡ yard_times w b q }
{
    is_time(w) & is_time(b) & is_time(q)
}

fn device_times(s: Slot) -> bool
    ensures { result ≡ device_times s }
{
    is_time(s.F) & is_time(s.E) & is_time(s.R) & is_time(s.X)
}

fn pair_times(s: Slot) -> bool
    ensures { result ≡ pair_times s }
{
    is_time(s.G) & is_time(s.S)
}

fn no_spacing(s: Slot) -> bool
    ensures { result ≡ no_spacing s }
{
    (s.G == 0) & (s.S == 0)
}

// Stays: `s == Slot::default()` proves, but a plan's check took a fifth more time with it (timed alone).
fn all_zero(s: Slot) -> bool
    ensures { result ≡ all_zero s }
{
    (s.F == 0) & (s.E == 0) & (s.R == 0) & (s.X == 0) & (s.G == 0) & (s.S == 0)
}

fn c5(s: Slot, next: Slot) -> bool
    ensures { result ≡ c5_holds s next }
{
    u32::from(s.E) + u32::from(s.G) < u32::from(next.E)
}

fn c7(s: Slot) -> bool
    ensures { result ≡ c7_holds s }
{
    s.S < s.X
}

// The line that is broken at a slot above N, if it is.
#[tactic(auto, unfolding(crate::specs::Lines::unused_line))]
fn unused_line(s: Slot) -> Option<u8>
    ensures { result ≡ unused_line s }
{
    if !all_zero(s) {
        return Some(3);
    }
    None
}

impl Yardstick {
    fn c2(self) -> bool
        ensures { result ≡ c2_holds self.n self.w self.ls }
    {
        product(self.n, self.w) < self.ls
    }

    fn c3(self, q: u16) -> bool
        ensures { result ≡ c3_holds self.n self.w q self.ls }
    {
        (product(self.n.saturating_sub(1), self.w) < u32::from(q)) & (u32::from(q) < self.ls)
    }

    // With k devices before it: a byte, so that the sum fits.
    fn c4(self, k: u8, s: Slot) -> bool
        ensures { result ≡ c4_holds k self.w self.ls s }
    {
        product(u16::from(k), self.w) + stay(s) <= self.ls
    }

    fn c6(self, s: Slot, next: Slot) -> bool
        ensures { result ≡ c6_holds self.w s next }
    {
        u32::from(self.w) + stay(next) < u32::from(s.E) + u32::from(s.R)
    }

    // The first broken line at the yard's index, if one is broken.
    #[tactic(auto, unfolding(crate::specs::Lines::yard_line))]
    pub fn yard_line(self, b: u16, q: u16) -> Option<u8>
        ensures { result ≡ yard_line self.n self.w b q self.ls }
    {
        if !size_holds(self.n) {
            return Some(1);
        }
        if !yard_times(self.w, b, q) {
            return Some(2);
        }
        if !self.c2() {
            return Some(4);
        }
        if !self.c3(q) {
            return Some(5);
        }
        None
    }

    // The same at a device that makes a pair with the next.
    #[tactic(auto, unfolding(crate::specs::Lines::pair_line))]
    fn pair_line(self, k: u8, s: Slot, next: Slot) -> Option<u8>
        ensures { result ≡ pair_line k self.w self.ls s next }
    {
        if !(device_times(s) & pair_times(s)) {
            return Some(2);
        }
        if !self.c4(k, s) {
            return Some(6);
        }
        if !c5(s, next) {
            return Some(7);
        }
        if !self.c6(s, next) {
            return Some(8);
        }
        if !c7(s) {
            return Some(9);
        }
        None
    }

    // The same at device N.
    #[tactic(auto, unfolding(crate::specs::Lines::last_line))]
    fn last_line(self, k: u8, s: Slot) -> Option<u8>
        ensures { result ≡ last_line k self.w self.ls s }
    {
        if !device_times(s) {
            return Some(2);
        }
        if !no_spacing(s) {
            return Some(3);
        }
        if !self.c4(k, s) {
            return Some(6);
        }
        None
    }

    // The same at the slot with k slots before it.
    #[tactic(auto, unfolding(crate::specs::Lines::slot_line))]
    pub fn slot_line(self, k: u8, s: Slot, next: Slot) -> Option<u8>
        ensures { result ≡ slot_line k self.n self.w self.ls s next }
    {
        let i = u16::from(k) + 1;
        if i < self.n {
            return self.pair_line(k, s, next);
        }
        if i == self.n {
            return self.last_line(k, s);
        }
        unused_line(s)
    }
}
