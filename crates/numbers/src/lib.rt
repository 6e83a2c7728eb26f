// Numbers as bytes, the lower byte first: read from any place of a slice, written at any place of a buffer.
//
// Every function here is total: past a slice's end each byte reads as 0, and nothing is written there. None has a `requires`.
#![tactic(auto)]

pub mod read;
pub mod write;
