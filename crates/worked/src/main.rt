// Document 01's plan P, and its worked plans that carry no star: W = 4, G1 = 0, N = 1, N = 9, and the paper's pendulum settings
// in tenths of a second (5 at 0).
// Each line is number and index.
#![tactic(auto)]

use rules::{Plan, Slot};
use vocabulary::{index_of, number_of};

fn times(F: u16, E: u16, R: u16, X: u16, G: u16, S: u16) -> Slot {
    Slot { F, E, R, X, G, S }
}

// A plan with two slots filled.
fn two(N: u16, W: u16, B: u16, Q: u16, one: Slot, other: Slot) -> Plan {
    let mut slots = [Slot::default(); 8];
    slots[0] = one;
    slots[1] = other;
    Plan { N, W, B, Q, slots }
}

// Stays: no `Display`, as in `rehearsal`; and an accepted plan has a line here, 0 0.
fn tell(rt: &impl Print, p: Plan) {
    let verdict = plan::check(p);
    let number = number_of(verdict);
    let index = index_of(verdict);
    let _ = println!(rt; "{number} {index}");
}

fn main(rt: HostRuntime) {
    let one = times(1, 1, 7, 2, 1, 1);
    let other = times(1, 3, 2, 1, 0, 0);
    tell(&rt, two(2, 1, 1, 3, one, other));
    tell(&rt, two(2, 4, 1, 3, one, other));
    tell(&rt, two(2, 1, 1, 3, times(1, 1, 7, 2, 0, 1), other));
    tell(&rt, two(1, 1, 1, 3, one, other));
    tell(&rt, two(9, 1, 1, 3, one, other));
    let pendulum_one = times(1, 10, 350, 60, 10, 15);
    let pendulum_other = times(1, 30, 200, 15, 0, 0);
    tell(&rt, two(2, 1, 1, 1, pendulum_one, pendulum_other));
}
