// What a report call gives one requester (document 01, "Giving reports").
#![tactic(auto)]

mod diagnostic_reports;
mod event_reports;
mod report_frames;

pub use report_frames::give_report;

// What filling a buffer that C lends came to: so many octets were written, whether the request has nothing more, and
// how far it has come: it has come so far in either case, which an Option or a Result would say twice.
#[derive(Clone, Copy)]
pub(crate) struct Filled<P> {
    pub wrote: usize,
    pub done: bool,
    pub after: P,
}
