// Yards as bytes, for callers in other languages: what stands where, and how they are written. Numbers are little-endian. No public
// function here has a `requires`: what does not fit is not written. They are read in `yard_reading`. A plan's bytes are a body's,
// and stand in `bodies`.
#![tactic(auto)]

pub mod yard;
