// The requester's side: the request writer and the report reader.
ghost use Rattle.std.specs.Prelude.{◌≡◌, map};
ghost use Rattle.octets.specs.Numbers.{kind_of};
ghost use Rattle.request_writer.specs.Writer.{write_request};
ghost use Rattle.report_reader.specs.Decoders.{transition_in, rsna_in, peer_link_in};
ghost use Rattle.report_reader.specs.Reader.{step_given, step_read, cursor_step, report_read, read_report};
ghost use Rattle.firmware.specs.Numbers.{element_from, write, numbered_write, numbered_report, numbered_step};

use crate::elements::elements_of;
use crate::{Reply, Report, ReportElement, Request, Step};
use octets::{Kind, Refusal};
use report_reader::{
    Cursor, PeerLinkReport, RsnaReport, TransitionReport, peer_link_in, read_report, rsna_in,
    transition_in,
};
use request_writer::write_request;

// Writes a request frame at the front of a buffer, or nothing where it is refused.
#[unsafe(no_mangle)]
pub extern "C" fn dultxibe_write_request(q: Request, buf: &mut [u8]) -> Reply
    ensures { write result buf.new ≡ numbered_write (write_request (kind_of q.kind) q.dialog (map element_from q.elements) q.count buf.old) }
{
    let elements = elements_of(&q.elements, q.count);
    let request = requests::Request {
        kind: Kind::from(q.kind),
        dialog: q.dialog,
        count: q.count,
        elements,
    };
    Reply::from(write_request(request, buf))
}

// A report of zeros: what a refused one or one that is read does not have.
const NO_REPORT: Report = Report {
    cause: 0,
    kind: 0,
    dialog: 0,
    place: 0,
    count: 0,
};

impl From<Result<report_reader::Report, Refusal>> for Report {
    ghost from_gives = { λ r report. report ≡ numbered_report (report_read r) };

    fn from(r: Result<report_reader::Report, Refusal>) -> Report {
        match r {
            Ok(report) => Report {
                kind: u8::from(report.kind),
                dialog: report.dialog,
                count: report.count,
                ..NO_REPORT
            },
            Err(refusal) => Report {
                cause: refusal.cause.number(),
                place: refusal.place,
                ..NO_REPORT
            },
        }
    }
}

// What stands at a position where no element does.
const NO_ELEMENT: ReportElement = ReportElement {
    token: 0,
    ty: 0,
    status: 0,
    logged: 0,
    length: 0,
    subs: 0,
};

// A step of zeros, likewise.
const NO_STEP: Step = Step {
    cause: 0,
    found: 0,
    place: 0,
    rest: 0,
    next: 0,
    element: NO_ELEMENT,
};

impl From<report_reader::Step> for Step {
    ghost from_gives = { λ t step. step ≡ numbered_step (step_given t.found t.next) };

    fn from(step: report_reader::Step) -> Step {
        let next = step.next.at;
        match step.found {
            Some(f) => Step {
                found: 1,
                rest: f.rest,
                next,
                element: ReportElement::from(f.element),
                ..NO_STEP
            },
            None => Step { next, ..NO_STEP },
        }
    }
}

impl From<Result<report_reader::Step, Refusal>> for Step {
    ghost from_gives = { λ r step. step ≡ numbered_step (step_read r) };

    fn from(r: Result<report_reader::Step, Refusal>) -> Step {
        match r {
            Ok(step) => Step::from(step),
            Err(refusal) => Step {
                cause: refusal.cause.number(),
                place: refusal.place,
                ..NO_STEP
            },
        }
    }
}

// Validates a whole report frame, told its form and given its destination.
#[unsafe(no_mangle)]
pub extern "C" fn dultxibe_read_report(form: u8, destination: &[u8; 6], s: &[u8]) -> Report
    ensures { result ≡ numbered_report (read_report form destination.now s.now) }
{
    Report::from(read_report(form, *destination, s))
}

// What stands at a position of a report frame of a form and a kind; the first element stands at 3.
#[unsafe(no_mangle)]
pub extern "C" fn dultxibe_next_element(form: u8, kind: u8, at: usize, s: &[u8]) -> Step
    ensures { result ≡ numbered_step (cursor_step form s.now (kind_of kind) at) }
{
    let cursor = Cursor { at };
    Step::from(cursor.next(form, s, Kind::from(kind)))
}

// The fields of an event in a form, from the octets behind a status; the element's type says which kind it is.
// A function for each name of C.
#[unsafe(no_mangle)]
pub extern "C" fn dultxibe_read_transition(form: u8, o: &[u8]) -> TransitionReport
    ensures { result ≡ transition_in form o.now }
{
    transition_in(form, o)
}

#[unsafe(no_mangle)]
pub extern "C" fn dultxibe_read_rsna(form: u8, o: &[u8]) -> RsnaReport
    ensures { result ≡ rsna_in form o.now }
{
    rsna_in(form, o)
}

#[unsafe(no_mangle)]
pub extern "C" fn dultxibe_read_peer_link(form: u8, o: &[u8]) -> PeerLinkReport
    ensures { result ≡ peer_link_in form o.now }
{
    peer_link_in(form, o)
}
