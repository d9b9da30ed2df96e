// A report call on one requester (document 01, "Giving reports").
ghost use Rattle.std.specs.Prelude.{◌≡◌, [], ◌∷◌, ◌+◌, ◌≤◌, min, length, take};
ghost use Rattle.std.proofs.Math.Option.{none};
ghost use Rattle.octets.specs.declared.numbers.Kind.TheVariants.{Event, Diagnostic};
ghost use Rattle.octets.specs.Numbers.{category, longest_frame, report_action};
ghost use Rattle.laws.specs.Buffers.{put_at};
ghost use Rattle.events.specs.Log.{logged};
ghost use Rattle.units.specs.Time.{elapsed_since};
ghost use Rattle.model.specs.Events.{next_event};
ghost use Rattle.model.specs.Diagnostics.{next_diagnostic};
ghost use Rattle.model.specs.Stations.{give_kind, give_report};
ghost use Rattle.requesters.specs.Views.{left, events_at, view_identity, view_requester, view_served};
ghost use Rattle.report_calls.specs.Internal.{FramedAs, filled_events, answered_diagnostics};

use crate::Filled;
use crate::diagnostic_reports::fill_diagnostics;
use crate::event_reports::fill_events;
use events::Log;
use octets::{Cause, Kind, numbers, put};
use requesters::{Answer, DiagnosticRequest, EventRequest, Progress, Requester, Served};

// An event request after a buffer was filled from it. Two functions: the requests share a flag alone, so that a
// trait over both, or one generic struct and its two sets of other fields, would be longer than they are.
fn after_events(r: EventRequest, f: Filled<Progress>) -> EventRequest
    ensures { result ≡ filled_events r f }
{
    let mut next = r;
    next.outstanding = !f.done;
    next.progress = f.after;
    next
}

// A diagnostic request after a buffer was filled from it.
fn after_diagnostics(r: DiagnosticRequest, f: Filled<u8>) -> DiagnosticRequest
    ensures { result ≡ answered_diagnostics r f }
{
    let mut next = r;
    next.outstanding = !f.done;
    next.first = f.after;
    next
}

// Where a frame in a buffer of so many octets ends at most.
fn frame_end(len: usize) -> usize
    ensures { result ≡ min len longest_frame }
{
    len.min(numbers::LONGEST_FRAME)
}

// The header at the front of a buffer, where it fits.
fn put_header(buf: &mut [u8], kind: Kind, dialog: u8)
    ensures { buf.new ≡ (put_at (category ∷ report_action kind ∷ dialog ∷ []) 0 buf.old).octets }
{
    let header = [numbers::CATEGORY, kind.report_action(), dialog];
    put(buf, 0, &header);
}

// An Event Report frame, in a form. The header comes last: a write before the log is copied would cost one copy of
// the log more, since the compiler cannot tell a lent buffer from a lent station.
// That a buffer has 260 octets is a clause of four functions: no array type says "260 or more", and with the header
// split off as an array, a parameter more in each, a report took 7,711 instructions for 7,546.
fn frame_events(form: u8, log: Log, r: EventRequest, buf: &mut [u8]) -> Filled<Progress>
    requires { 260 ≤ length buf.old }
    ensures { FramedAs (next_event elapsed_since form (logged log)) (report_action Event) r.dialog (events_at r r.progress) buf.old buf.new result.wrote result.done (events_at r result.after) }
{
    let end = frame_end(buf.len());
    let f = fill_events(form, log, r, &mut buf[3..end]);
    put_header(buf, Kind::Event, r.dialog);
    f
}

// A Diagnostic Report frame. Two functions: one for both kinds would take what fills the frame as a closure, and its
// clauses would have to say of any closure what these say of one call.
fn frame_diagnostics(r: DiagnosticRequest, identity: &[u8], buf: &mut [u8]) -> Filled<u8>
    requires { 260 ≤ length buf.old }
    ensures { FramedAs (next_diagnostic (take 252 identity.now)) (report_action Diagnostic) r.dialog (left r.first r.count r.elements) buf.old buf.new result.wrote result.done (left result.after r.count r.elements) }
{
    let end = frame_end(buf.len());
    let f = fill_diagnostics(r, identity, &mut buf[3..end]);
    put_header(buf, Kind::Diagnostic, r.dialog);
    f
}

fn served(requester: Requester, answer: Answer) -> Served
    ensures { result ≡ record { requester = requester; answer = answer } }
{
    Served { requester, answer }
}

// An event report, where a request is outstanding. For each kind a function, as of the frames: a function of both
// would take the frame and what is left of the request as closures.
fn give_events(r: Requester, log: Log, buf: &mut [u8]) -> Served
    requires { 260 ≤ length buf.old }
    ensures { view_served result buf.new ≡ give_kind elapsed_since none (logged log) buf.old (view_requester r) Event }
{
    let events = r.events;
    if !events.outstanding {
        return served(r, Answer::Nothing);
    }
    let f = frame_events(r.form, log, events, buf);
    let mut requester = r;
    requester.events = after_events(events, f);
    served(requester, Answer::Length(3 + f.wrote))
}

// A diagnostic report, where a request is outstanding.
fn give_diagnostics(r: Requester, identity: &[u8], buf: &mut [u8]) -> Served
    requires { 260 ≤ length buf.old }
    ensures { view_served result buf.new ≡ give_kind elapsed_since (view_identity (length identity.now) (take 252 identity.now)) [] buf.old (view_requester r) Diagnostic }
{
    let diagnostics = r.diagnostics;
    if !diagnostics.outstanding {
        return served(r, Answer::Nothing);
    }
    let f = frame_diagnostics(diagnostics, identity, buf);
    let mut requester = r;
    requester.diagnostics = after_diagnostics(diagnostics, f);
    served(requester, Answer::Length(3 + f.wrote))
}

// The report call of a listed requester: refused for a short buffer, nothing, or a frame. Of an identity more
// than 252 octets are not taken. A match, which the compiler holds to name every kind.
pub fn give_report(r: Requester, identity: &[u8], log: Log, kind: Kind, buf: &mut [u8]) -> Served
    ensures { view_served result buf.new ≡ give_report elapsed_since (view_identity (length identity.now) (take 252 identity.now)) (logged log) kind buf.old (view_requester r) }
{
    if buf.len() < numbers::REPORT_BUFFER {
        return served(r, Answer::Refused(Cause::ShortBuffer.at(0)));
    }
    match kind {
        Kind::Event => give_events(r, log, buf),
        Kind::Diagnostic => give_diagnostics(r, identity, buf),
    }
}
