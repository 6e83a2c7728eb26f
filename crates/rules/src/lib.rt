// The types of document 01: what a plan, a yard, a record and an answer are made of.
// There is no running code here but what the derives write. specs/ has document 01 as definitions over these types, proofs/ the
// theorems that keep the definitions honest, and the crates above have the calls.
//
// The first variant of `Base` and of `Place` is the one of a fresh yard. Single capitals are document 01's own names.
#![tactic(auto)]

// The times of one device, in ticks: F (rest), E (enter), R (run), X (exit), and of the pair that it makes with
// the next device: G (enter spacing), S (exit spacing).
#[derive(Clone, Copy, Debug, Default, PartialEq, Eq)]
pub struct Slot {
    pub F: u16,
    pub E: u16,
    pub R: u16,
    pub X: u16,
    pub G: u16,
    pub S: u16,
}

// N devices, the yard's W (wait), B (base rest) and Q (request limit), and eight device slots: device i's is slots[i - 1].
#[derive(Clone, Copy, Debug, Default, PartialEq, Eq)]
pub struct Plan {
    pub N: u16,
    pub W: u16,
    pub B: u16,
    pub Q: u16,
    pub slots: [Slot; 8],
}

// Why a call refuses its input: document 01's number and index. An index may be a record's number in a roll of any length.
// Stays: a number and no enum: document 01 refuses by number, and `line_verdict` and `RefusedExactly` are over every k.
#[derive(Clone, Copy, Debug, PartialEq, Eq)]
pub struct Refusal {
    pub number: u8,
    pub index: usize,
}

// What a call answers of its input: taken, or refused.
pub type Verdict = Result<(), Refusal>;

// Where the supervisor stands; the number is the device i of Lease i, Cancel i and Abort i, from 1.
#[derive(Clone, Copy, Debug, Default, PartialEq, Eq)]
pub enum Base {
    #[default]
    FallBack,
    Lease(u8),
    Cancel(u8),
    Abort(u8),
}

// Where a device stands. Only the initializer is ever in Requesting.
#[derive(Clone, Copy, Debug, Default, PartialEq, Eq)]
pub enum Place {
    #[default]
    FallBack,
    Requesting,
    Entering,
    Running,
    Exiting1,
    Exiting2,
}

// A letter of a device's own, on its way up.
#[derive(Clone, Copy, Debug, PartialEq, Eq)]
pub enum Letter {
    Request,
    Cancel,
    Approve,
    Deny,
    Exit,
}

// Each device holds its place, its clock and at most one letter waiting to go up. In this order a device takes six bytes, and a
// clock is stored without touching the place beside it; with the clock first it would be read back whole, and wait for that.
#[derive(Clone, Copy, Debug, Default, PartialEq, Eq)]
pub struct Device {
    pub place: Place,
    pub clock: u16,
    pub letter: Option<Letter>,
}

// The supervisor's place with its place clock and its lease clock, and eight devices: device i is devices[i - 1].
// The lease clock may pass 65,535; no other clock does.
#[derive(Clone, Copy, Debug, Default, PartialEq, Eq)]
pub struct Yard {
    pub base: Base,
    pub clock: u16,
    pub lease: u32,
    pub devices: [Device; 8],
}

// The four bytes of one tick's input, as they stand in a roll.
// Stays: bytes, the command too, and no enum of commands: a record may hold any byte until refusal 10 has been asked.
#[derive(Clone, Copy, Debug, Default, PartialEq, Eq)]
pub struct Record {
    pub command: u8,
    pub flags: u8,
    pub willing: u8,
    pub lost: u8,
}

// The initializer's commands, in a record's first byte; 0 is none.
pub const REQUEST: u8 = 1;

pub const CANCEL: u8 = 2;

// A letter that the supervisor sends down, with the device that it is for.
#[derive(Clone, Copy, Debug, PartialEq, Eq)]
pub enum Down {
    LeaseReq(u8),
    Grant(u8),
    Cancel(u8),
    Abort(u8),
}

// What the supervisor goes by of an accepted plan: N, W, B, and LS = E1 + R1 + X1.
#[derive(Clone, Copy)]
pub struct Terms {
    pub N: u8,
    pub W: u16,
    pub B: u16,
    pub LS: u32,
}

// What the supervisor does in a tick: where it then stands, with both clocks, and the letter that it sends.
#[derive(Clone, Copy)]
pub struct BaseMove {
    pub base: Base,
    pub clock: u16,
    pub lease: u32,
    pub down: Option<Down>,
}

// Stays: a verdict beside a value in each answer below, no `Result` of the value: document 01's refusals answer the value too,
// a fresh yard, or the yard as it was given and 0 ticks (`fresh_answer`, `tick_answer`, `run_answer`).
#[derive(Clone, Copy)]
pub struct FreshAnswer {
    pub verdict: Verdict,
    pub yard: Yard,
}

#[derive(Clone, Copy)]
pub struct TickAnswer {
    pub verdict: Verdict,
    pub yard: Yard,
    pub down: Option<Down>,
}

#[derive(Clone, Copy)]
pub struct RunAnswer {
    pub verdict: Verdict,
    pub yard: Yard,
    pub ticks: usize,
}
