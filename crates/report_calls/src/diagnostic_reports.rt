// Diagnostic reports: the elements of a request, each with one report. The identity, which is read, goes beside
// the buffer, which is written.
ghost use Rattle.std.specs.Prelude.{◌≡◌, take};
ghost use Rattle.reports.specs.Reports.{PutWhole};
ghost use Rattle.model.specs.Diagnostics.{diagnostic_treatment, diagnostic_report, next_diagnostic};
ghost use Rattle.requesters.specs.Views.{left};
ghost use Rattle.report_calls.specs.Internal.{FilledAs};

use crate::Filled;
use model::{Diagnostic, Treatment};
use octets::{Kind, numbers};
use reports::{Head, put_list, put_plain};
use requesters::{DiagnosticRequest, diagnostic_treatment};
use requests::ELEMENT_CAPACITY;

// Puts the report of an element at the front of the part lent.
fn put_diagnostic(x: Diagnostic, identity: &[u8], buf: &mut [u8]) -> Option<usize>
    ensures { PutWhole (diagnostic_report (take 252 identity.now) x (diagnostic_treatment x.ty)) buf.old result buf.new }
{
    let head = Head {
        kind: Kind::Diagnostic,
        token: x.token,
        ty: x.ty,
        status: numbers::INCAPABLE,
    };
    match diagnostic_treatment(x.ty) {
        Treatment::Identity => put_list(
            buf,
            Head {
                status: numbers::SUCCESSFUL,
                ..head
            },
            identity,
        ),
        _ => put_plain(buf, head),
    }
}

// Elements one behind the other, while each fits; how far the request has come is its first element left.
pub(crate) fn fill_diagnostics(d: DiagnosticRequest, identity: &[u8], buf: &mut [u8]) -> Filled<u8>
    ensures { FilledAs (next_diagnostic (take 252 identity.now)) (left d.first d.count d.elements) buf.old buf.new result.wrote result.done (left result.after d.count d.elements) }
{
    let end = (d.count as usize).min(ELEMENT_CAPACITY) as u8;
    let mut at: usize = 0;
    for i in d.first..end {
        let x = d.elements[i as usize];
        let Some(n) = put_diagnostic(x, identity, &mut buf[at..]) else {
            return Filled {
                wrote: at,
                done: false,
                after: i,
            };
        };
        at += n;
    }
    Filled {
        wrote: at,
        done: true,
        after: d.count,
    }
}
