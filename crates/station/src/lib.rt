// A station (document 01: a gate): its time, its identity, its log and its requesters, and the calls
// on it.
#![tactic(auto)]

// Calls have the parameters that C hands in, as they come.
mod clock;
mod explaining;
mod frames;
mod logging;
mod moves;
mod outcomes;
mod reporting;
mod requester_lists;
mod setup;
mod timers;

use events::Log;
use model::REQUESTER_CAPACITY;
use requesters::{Answer, Requester};
use units::{Elapsed, Milliseconds};

// An identity has at most so many octets.
const IDENTITY: usize = 252;

// The time of the latest call, and its reading, where one was made (started: a flag, since C lends this memory).
#[repr(C)]
#[derive(Clone, Copy)]
pub struct Timer {
    pub now: Elapsed,
    pub last: Milliseconds,
    pub started: bool,
}

// A station: its timer, its identity's first length octets (0: it has none), its log, and its first
// count requesters: counts, since C lends this memory. The other requesters' places have no effect; setup, a move
// and a network change blank them.
#[repr(C)]
#[derive(Clone, Copy)]
pub struct Station {
    pub timer: Timer,
    pub identity: [u8; IDENTITY],
    pub length: usize,
    pub log: Log,
    pub requesters: [Requester; REQUESTER_CAPACITY],
    pub count: usize,
}

// What a call gives: the station after it, and the answer.
#[derive(Clone, Copy)]
pub struct Outcome {
    pub station: Station,
    pub answer: Answer,
}

// What a frame or a report call changes of a station, and the answer: the identity, the log and the number
// of requesters stay.
#[derive(Clone, Copy)]
pub struct Changed {
    pub timer: Timer,
    pub requesters: [Requester; REQUESTER_CAPACITY],
    pub answer: Answer,
}
