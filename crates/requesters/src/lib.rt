// One requester (document 01: a console), and what frames, the clock and the log make of its requests.
#![tactic(auto)]

ghost use Rattle.std.specs.Prelude.{◌≤◌};
ghost use Rattle.requests.specs.Elements.{element_capacity};

mod diagnostic_requests;
mod dialogs;
mod event_requests;

pub use diagnostic_requests::{
    blank_diagnostics, diagnostic_treatment, new_diagnostics, on_time, renews_diagnostics,
};
pub use event_requests::{blank_events, lower, new_events, renews_events};
use model::Diagnostic;
use octets::Refusal;
use requests::{ELEMENT_CAPACITY, Element};
use units::Elapsed;

// How far an event request has come: its first element left, how many events that one gave, and
// below which place of the log its next one is.
#[repr(C)]
#[derive(Clone, Copy)]
pub struct Progress {
    pub first: u8,
    pub given: u8,
    pub below: u8,
}

// An event request, where outstanding: a flag, since C lends this memory, and Rattle gives C no enum. Its elements
// left are those from progress.first to count; the other places are free. The first mark places of the log were
// logged before acceptance. Counts are octets: as words they make the station, which calls copy, a fortieth larger.
#[repr(C)]
#[derive(Clone, Copy)]
pub struct EventRequest {
    pub outstanding: bool,
    pub dialog: u8,
    pub mark: u8,
    pub progress: Progress,
    pub count: u8,
    pub elements: [Element; ELEMENT_CAPACITY],
}

// A diagnostic request, where outstanding, and the time of its acceptance. Its elements left are
// those from first to count; the other places are free. A flag and counts, as an event request has them.
#[repr(C)]
#[derive(Clone, Copy)]
pub struct DiagnosticRequest {
    pub accepted: Elapsed,
    pub first: u8,
    pub count: u8,
    pub elements: [Diagnostic; ELEMENT_CAPACITY],
    pub outstanding: bool,
    pub dialog: u8,
}

// The elements that a diagnostic request opens with, or those that the late drop leaves of one: the first count of
// an array, which becomes part of the station's memory by one copy.
#[derive(Clone, Copy)]
pub(crate) struct Diagnostics {
    pub count: usize,
    pub elements: [Diagnostic; ELEMENT_CAPACITY],
    ghost few: { count ≤ element_capacity },
}

// A requester, with the form that it follows (document 02 (g)) and at most one request of each kind. The form is the
// number that C hands in and keeps; one that is no form was refused by cause 15.
#[repr(C)]
#[derive(Clone, Copy)]
pub struct Requester {
    pub address: [u8; 6],
    pub form: u8,
    pub events: EventRequest,
    pub diagnostics: DiagnosticRequest,
}

// The answer to a call. No Result: Accepted and Nothing are neither a value nor an error.
#[derive(Clone, Copy)]
pub enum Answer {
    Accepted,
    Nothing,
    // A frame of so many octets stands in the buffer.
    Length(usize),
    Refused(Refusal),
}

// What a call makes of its requester, and the answer. Beside station's Outcome: each says by its name and its
// field what is left, and one generic struct for both would not.
#[derive(Clone, Copy)]
pub struct Served {
    pub requester: Requester,
    pub answer: Answer,
}
