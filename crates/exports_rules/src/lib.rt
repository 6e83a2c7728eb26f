// What the calls for C and Rust answer and write, as definitions and theorems; the calls themselves stand in `exports`. No
// running code.
#![tactic(auto)]
