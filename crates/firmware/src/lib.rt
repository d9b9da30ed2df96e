// The C interface (include/dultxibe.h): setup, the calls on a station, which they change in place, the
// request writer and the report reader, over structs of C's layout, with numbers for answers. No bool
// crosses but those inside a station: a flag is a number, 0 or not.
#![tactic(auto)]

mod elements;
mod exports;
mod frames;
mod replies;

use requests::ELEMENT_CAPACITY;
use station::Station;

// An answer: code 0 accepted, 1 nothing, 2 a frame of a length, 3 refused by a cause at a place. What
// an answer does not have is 0.
#[repr(C)]
#[derive(Clone, Copy)]
pub struct Reply {
    pub code: u8,
    pub cause: u8,
    pub place: usize,
    pub length: usize,
}

// What a call gives: the station after it, and the answer.
#[repr(C)]
#[derive(Clone, Copy)]
pub struct Outcome {
    pub station: Station,
    pub reply: Reply,
}

// A condition, present where its flag is not 0.
#[repr(C)]
#[derive(Clone, Copy)]
pub struct Condition {
    pub present: u8,
    pub octets: [u8; 8],
}

// A request element: the limit of an event, the timeout in seconds of a diagnostic, the conditions of
// an event type that has a table.
#[repr(C)]
#[derive(Clone, Copy)]
pub struct RequestElement {
    pub token: u8,
    pub ty: u8,
    pub timeout: u16,
    pub limit: u8,
    pub filter: [Condition; 5],
}

// What the request writer takes: its kind (0 event, any other diagnostic), dialog token and first
// count elements.
#[repr(C)]
#[derive(Clone, Copy)]
pub struct Request {
    pub kind: u8,
    pub dialog: u8,
    pub count: usize,
    pub elements: [RequestElement; ELEMENT_CAPACITY],
}

// A report frame: refused by a cause at a place; or cause 0, its kind (0 event, 1 diagnostic), dialog
// token and number of elements.
#[repr(C)]
#[derive(Clone, Copy)]
pub struct Report {
    pub cause: u8,
    pub kind: u8,
    pub dialog: u8,
    pub place: usize,
    pub count: usize,
}

// The fields of a report element: how many octets stand behind its status, how many subelements they
// are (in a diagnostic), and whether they are an event of its type (1; else 0).
#[repr(C)]
#[derive(Clone, Copy)]
pub struct ReportElement {
    pub token: u8,
    pub ty: u8,
    pub status: u8,
    pub logged: u8,
    pub length: usize,
    pub subs: usize,
}

// What stands at a position of a report frame: refused by a cause at a place; or cause 0, and an
// element of the frame's own ID (found 1), with the position of what stands behind its status; or one
// of another ID (found 0). Next is the position behind it.
#[repr(C)]
#[derive(Clone, Copy)]
pub struct Step {
    pub cause: u8,
    pub found: u8,
    pub place: usize,
    pub rest: usize,
    pub next: usize,
    pub element: ReportElement,
}
