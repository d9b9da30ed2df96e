// Report elements, written (document 01, "Frames and elements"): each is put whole at the front of
// the part of a report buffer that is lent, or not at all.
#![tactic(auto)]

ghost use Rattle.std.specs.Prelude.{◌≡◌, [], ◌≤◌, length, take};
ghost use Rattle.laws.specs.Buffers.{wrote, put_at};
ghost use Rattle.events.specs.Log.{time_of};
ghost use Rattle.reports.specs.Reports.{report_head, report_element, event_element, PutWhole};

use events::{BODY_CAPACITY, DRAFT, Entry, time_length};
use octets::{Kind, numbers, put};

// The octets of a report element up to its status.
const HEAD: usize = 5;

// The longest list behind token, type and status.
const LONGEST_LIST: usize = 252;

// What an element has up to its status, but for its length.
#[derive(Clone, Copy)]
pub struct Head {
    pub kind: Kind,
    pub token: u8,
    pub ty: u8,
    pub status: u8,
}

impl Head {
    // Its octets, with so many behind them.
    fn octets(self, rest: usize) -> [u8; HEAD]
        requires { rest ≤ 252 }
        ensures { result ≡ report_head self.kind self.token self.ty self.status rest }
    {
        [
            self.kind.report_id(),
            (3 + rest) as u8,
            self.token,
            self.ty,
            self.status,
        ]
    }
}

// A report with octets behind its status; how many octets it has, where it fits. put_event has room test and head
// of its own: with one function of two parts, a report of 64 events takes 10,207 instructions for 9,374.
fn put_report(buf: &mut [u8], head: Head, rest: &[u8]) -> Option<usize>
    requires { length rest.now ≤ 252 }
    ensures { PutWhole (report_element head.kind head.token head.ty head.status rest.now) buf.old result buf.new }
{
    if buf.len() < HEAD + rest.len() {
        return None;
    }
    let octets = head.octets(rest.len());
    let behind_head = put(buf, 0, &octets);
    Some(put(buf, behind_head, rest))
}

// A report of length 3: Successful with no event, or Incapable.
pub fn put_plain(buf: &mut [u8], head: Head) -> Option<usize>
    ensures { PutWhole (report_element head.kind head.token head.ty head.status []) buf.old result buf.new }
{
    put_report(buf, head, &[])
}

// A report with a list behind its status: a diagnostic's subelements, of which more than 252 octets are not taken.
pub fn put_list(buf: &mut [u8], head: Head, list: &[u8]) -> Option<usize>
    ensures { PutWhole (report_element head.kind head.token head.ty head.status (take 252 list.now)) buf.old result buf.new }
{
    put_report(buf, head, &list[..LONGEST_LIST.min(list.len())])
}

// The time fields of an event in a form, behind the first `at` of a buffer.
#[tactic(auto, using(laws::proofs::Choice::choices))]
fn put_time(buf: &mut [u8], at: usize, form: u8, entry: Entry) -> usize
    ensures { wrote result buf.new ≡ put_at (time_of form entry) at buf.old }
{
    if form == DRAFT {
        put(buf, at, &entry.time)
    } else {
        put(buf, at, &entry.published)
    }
}

// A Successful report with an event: its time fields in a form, and its body.
pub fn put_event(buf: &mut [u8], form: u8, token: u8, entry: Entry) -> Option<usize>
    ensures { PutWhole (event_element form token entry) buf.old result buf.new }
{
    let n = (entry.length as usize).min(BODY_CAPACITY);
    let rest = time_length(form) + n;
    if buf.len() < HEAD + rest {
        return None;
    }
    let head = Head {
        kind: Kind::Event,
        token,
        ty: entry.ty,
        status: numbers::SUCCESSFUL,
    };
    let octets = head.octets(rest);
    let behind_head = put(buf, 0, &octets);
    let behind_time = put_time(buf, behind_head, form, entry);
    Some(put(buf, behind_time, &entry.body[..n]))
}
