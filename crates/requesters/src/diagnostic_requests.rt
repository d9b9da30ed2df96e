// Diagnostic requests: the late drop, and what an accepted frame leaves.
ghost use Rattle.std.specs.Prelude.{◌≡◌};
ghost use Rattle.units.specs.Time.{elapsed_since};
ghost use Rattle.requests.specs.Requests.{accepted_request};
ghost use Rattle.model.specs.Diagnostics.{diagnostic_treatment, is_late, on_time, unless_over, drop_late, is_cancel, holds_cancel, diagnostics_of};
ghost use Rattle.requesters.specs.Views.{left, view_diagnostics};
ghost use Rattle.requesters.specs.Internal.{listed_elements, renews_diagnostics, new_diagnostics};
ghost use Rattle.requesters.specs.Blank.{blank_diagnostics};

use crate::dialogs::is_repeated;
use crate::{DiagnosticRequest, Diagnostics};
use model::{Diagnostic, Treatment};
use octets::Kind;
use requests::{ELEMENT_CAPACITY, Element, Request};
use units::{Elapsed, Milliseconds};

// What a diagnostic's type number decides.
pub fn diagnostic_treatment(ty: u8) -> Treatment
    ensures { result ≡ diagnostic_treatment ty }
{
    match ty {
        0 => Treatment::Cancel,
        1 => Treatment::Identity,
        _ => Treatment::Incapable,
    }
}

// What stands in a place that is free.
const BLANK: Diagnostic = Diagnostic {
    token: 0,
    ty: 0,
    timeout: 0,
};

fn is_late(now: Elapsed, accepted: Elapsed, x: Diagnostic) -> bool
    ensures { result ≡ is_late elapsed_since now.0 accepted.0 x }
{
    now.since(accepted)
        .exceeds(Milliseconds::from_seconds(x.timeout))
}

// A request of these elements; with none it is over.
fn request_of(dialog: u8, accepted: Elapsed, k: Diagnostics) -> DiagnosticRequest
    ensures { view_diagnostics result ≡ unless_over dialog accepted.0 (listed_elements k) }
{
    let elements = k.elements;
    DiagnosticRequest {
        outstanding: 0 < k.count,
        dialog,
        accepted,
        first: 0,
        count: k.count as u8,
        elements,
    }
}

// Those on time of the elements left, from place to place of the array: no filter collects into one.
fn kept(d: DiagnosticRequest, now: Elapsed) -> Diagnostics
    ensures { listed_elements result ≡ on_time elapsed_since now.0 d.accepted.0 (left d.first d.count d.elements) }
{
    let accepted = d.accepted;
    let all = d.elements;
    let first = d.first as usize;
    let end = (d.count as usize).min(ELEMENT_CAPACITY);
    let mut elements = all;
    let mut count: usize = 0;
    for i in first..end {
        let x = all[i];
        if !is_late(now, accepted, x) {
            elements[count] = x;
            count += 1;
        }
    }
    Diagnostics { count, elements }
}

// The late drop.
pub fn on_time(d: DiagnosticRequest, now: Elapsed) -> DiagnosticRequest
    ensures { view_diagnostics result ≡ drop_late elapsed_since now.0 (view_diagnostics d) }
{
    if !d.outstanding {
        return d;
    }
    let accepted = d.accepted;
    request_of(d.dialog, accepted, kept(d, now))
}

// The elements that a frame asks for, from the last to the first: in the other order the compiler
// unrolls the loop and copies each element of the frame by itself.
fn diagnostics_of(q: Request) -> Diagnostics
    ensures { listed_elements result ≡ diagnostics_of (accepted_request q) }
{
    let asked = q.elements;
    let end = q.count.min(ELEMENT_CAPACITY);
    let mut elements = [BLANK; ELEMENT_CAPACITY];
    for i in (0..end).rev() {
        elements[i] = Diagnostic::from(asked[i]);
    }
    Diagnostics {
        count: end,
        elements,
    }
}

fn cancels(x: Element) -> bool
    ensures { result ≡ is_cancel (diagnostic_treatment x.ty) }
{
    diagnostic_treatment(x.ty) == Treatment::Cancel
}

// Does a frame ask for a Cancel?
fn asks_cancel(q: Request) -> bool
    ensures { result ≡ holds_cancel (diagnostics_of (accepted_request q)) }
{
    let asked = q.elements;
    let end = q.count.min(ELEMENT_CAPACITY);
    asked[..end].iter().any(|x| cancels(*x))
}

// No request is outstanding, and none has left anything.
pub fn blank_diagnostics() -> DiagnosticRequest
    ensures { result ≡ blank_diagnostics }
{
    DiagnosticRequest {
        outstanding: false,
        dialog: 0,
        accepted: Elapsed(0),
        first: 0,
        count: 0,
        elements: [BLANK; ELEMENT_CAPACITY],
    }
}

// Does a frame of diagnostics change what is outstanding: by a Cancel, or as no repetition?
fn cancels_or_opens(q: Request, d: DiagnosticRequest) -> bool
    ensures { result ≡ renews_diagnostics (accepted_request q) d.outstanding d.dialog Kind.Diagnostic }
{
    asks_cancel(q) || !is_repeated(d.outstanding, d.dialog, q.dialog)
}

// Does an accepted frame change what is outstanding?
pub fn renews_diagnostics(q: Request, d: DiagnosticRequest) -> bool
    ensures { result ≡ renews_diagnostics (accepted_request q) d.outstanding d.dialog q.kind }
{
    match q.kind {
        Kind::Event => false,
        Kind::Diagnostic => cancels_or_opens(q, d),
    }
}

// What a frame that changes it leaves.
pub fn new_diagnostics(q: Request, now: Elapsed) -> DiagnosticRequest
    ensures { view_diagnostics result ≡ new_diagnostics now.0 (accepted_request q) }
{
    if asks_cancel(q) {
        return blank_diagnostics();
    }
    request_of(q.dialog, now, diagnostics_of(q))
}
