// What the supervisor does in a tick (step 3), once step 1 has moved its clocks on and the letters have gone up.
// It only compares clocks and sets them to 0, so it takes any place and any clocks, and no public function here has a
// `requires`; two private ones take it that i is below N, and `below` takes a kind that can always be called.
#![tactic(auto)]

ghost use Rattle.std.specs.Prelude.{◌≡◌, ◌≢◌, ◌-◌, ◌<◌};
ghost use Rattle.rules.specs.Tick.Step3 as step3;

use rules::{Base, BaseMove, Down, Letter, Terms};

// What the supervisor goes by in a tick: whether approval holds, what is heard from the initializer (`last`), and what from the
// device i of its own place (`own`).
#[derive(Clone, Copy)]
pub struct Hearing {
    pub approved: bool,
    pub last: Option<Letter>,
    pub own: Option<Letter>,
}

// Its two clocks, which step 1 has moved on.
#[derive(Clone, Copy)]
pub struct Clocks {
    pub place: u16,
    pub lease: u32,
}

// Every change of place sets the place clock to 0.
fn goes(base: Base, lease: u32, down: Option<Down>) -> BaseMove
    ensures { result ≡ step3.goes base lease down }
{
    BaseMove {
        base,
        clock: 0,
        lease,
        down,
    }
}

fn falls_back() -> BaseMove
    ensures { result ≡ step3.falls_back }
{
    goes(Base::FallBack, 0, None)
}

fn stays(base: Base, clocks: Clocks) -> BaseMove
    ensures { result ≡ step3.stays base clocks.place clocks.lease }
{
    BaseMove {
        base,
        clock: clocks.place,
        lease: clocks.lease,
        down: None,
    }
}

// Stays: two functions, for `below` takes either as its kind, as the definition does (`step3.below step3.cancels`).
fn cancels(i: u8, lease: u32) -> BaseMove
    ensures { result ≡ step3.cancels i lease }
{
    goes(Base::Cancel(i), lease, Some(Down::Cancel(i)))
}

fn aborts(i: u8, lease: u32) -> BaseMove
    ensures { result ≡ step3.aborts i lease }
{
    goes(Base::Abort(i), lease, Some(Down::Abort(i)))
}

// The same kind at i - 1, sent, or Fall-Back when i is 1.
fn below<K: Fn(u8, u32) -> BaseMove>(kind: K, i: u8, lease: u32) -> BaseMove
    requires { K.IsAlwaysCallable kind }
    ensures first { i ≡ 1 → result ≡ step3.falls_back }
    ensures other { i ≢ 1 → K.post kind (i - 1) lease result }
{
    if i == 1 {
        return falls_back();
    }
    kind(i.saturating_sub(1), lease)
}

// On to the next device, which is below N or N itself: callers have seen that i < N.
fn leases(t: Terms, i: u8, lease: u32) -> BaseMove
    requires { i < t.N }
    ensures { result ≡ step3.leases t i lease }
{
    let next = i + 1;
    let down = if next == t.N {
        Down::Grant(next)
    } else {
        Down::LeaseReq(next)
    };
    goes(Base::Lease(next), lease, Some(down))
}

// Stays: terms, hearing, device and clocks side by side: step 3's definitions take the same in this order, each field by itself.
#[tactic(auto, unfolding(rules::specs::Tick::Step3::in_fall_back))]
fn in_fall_back(t: Terms, heard: Hearing, clocks: Clocks) -> BaseMove
    ensures { result ≡ step3.in_fall_back t heard.approved heard.last clocks.place clocks.lease }
{
    if (heard.last == Some(Letter::Request)) & (clocks.place == t.B) & heard.approved {
        return goes(Base::Lease(1), 0, Some(Down::LeaseReq(1)));
    }
    stays(Base::FallBack, clocks)
}

#[tactic(auto, unfolding(rules::specs::Tick::Step3::in_lease))]
fn in_lease(t: Terms, heard: Hearing, i: u8, clocks: Clocks) -> BaseMove
    requires { i < t.N }
    ensures { result ≡ step3.in_lease t heard.approved heard.last heard.own i clocks.place clocks.lease }
{
    if !heard.approved {
        return aborts(i, clocks.lease);
    }
    if heard.last == Some(Letter::Cancel) {
        return cancels(i, clocks.lease);
    }
    match heard.own {
        Some(Letter::Approve) => leases(t, i, clocks.lease),
        Some(Letter::Deny) => below(cancels, i, clocks.lease),
        _ if clocks.place == t.W => cancels(i, clocks.lease),
        _ => stays(Base::Lease(i), clocks),
    }
}

#[tactic(auto, unfolding(rules::specs::Tick::Step3::in_lease_n))]
fn in_lease_n(heard: Hearing, i: u8, clocks: Clocks) -> BaseMove
    ensures { result ≡ step3.in_lease_n heard.approved heard.last heard.own i clocks.place clocks.lease }
{
    if heard.own == Some(Letter::Exit) {
        return cancels(i.saturating_sub(1), clocks.lease);
    }
    if !heard.approved {
        return aborts(i, clocks.lease);
    }
    if heard.last == Some(Letter::Cancel) {
        return cancels(i, clocks.lease);
    }
    stays(Base::Lease(i), clocks)
}

// The place while a lease runs: below N on to the next device, at N waiting for its exit.
#[tactic(auto, unfolding(rules::specs::Tick::Step3::leasing))]
fn leasing(t: Terms, heard: Hearing, i: u8, clocks: Clocks) -> BaseMove
    ensures { result ≡ step3.leasing t heard.approved heard.last heard.own i clocks.place clocks.lease }
{
    if i < t.N {
        return in_lease(t, heard, i, clocks);
    }
    in_lease_n(heard, i, clocks)
}

// The supervisor's move. The lease clock at LS comes before approval and before every letter.
#[tactic(auto, unfolding(rules::specs::Tick::Step3::base_move, rules::specs::Tick::Step3::cancelling, rules::specs::Tick::Step3::aborting))]
pub fn base_move(t: Terms, heard: Hearing, base: Base, clocks: Clocks) -> BaseMove
    ensures { result ≡ step3.base_move t heard.approved heard.last heard.own base clocks.place clocks.lease }
{
    match base {
        Base::FallBack => in_fall_back(t, heard, clocks),
        _ if clocks.lease == t.LS => falls_back(),
        Base::Lease(i) => leasing(t, heard, i, clocks),
        Base::Cancel(i) if heard.own == Some(Letter::Exit) => below(cancels, i, clocks.lease),
        Base::Abort(i) if heard.own == Some(Letter::Exit) => below(aborts, i, clocks.lease),
        Base::Cancel(_) | Base::Abort(_) => stays(base, clocks),
    }
}
