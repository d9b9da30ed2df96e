// Frame calls.
ghost use Rattle.std.specs.Prelude.{◌≡◌, List, [], length};
ghost use Rattle.events.specs.Log.{logged as log_logged};
ghost use Rattle.model.specs.Clocks.{elapsed_clock};
ghost use Rattle.model.specs.Model.{standard, frame};
ghost use Rattle.model.specs.Stations.{request_call, step, take_kind};
ghost use Rattle.requests.specs.Requests.{accepted_request, request_read};
ghost use Rattle.events.specs.declared.Entry.{Entry};
ghost use Rattle.requesters.specs.Views.{view_requester};
ghost use Rattle.station.specs.Internal.{admitted};
ghost use Rattle.station.specs.Views.{view, view_outcome, changed_outcome};

use crate::clock::ticked;
use crate::outcomes::changed;
use crate::requester_lists::find;
use crate::{Changed, Outcome, Station};
use events::Log;
use model::{REQUESTER_CAPACITY, REQUESTER_LAST};
use octets::{Cause, Refusal, is_group};
use requesters::{
    Answer, Requester, new_diagnostics, new_events, renews_diagnostics, renews_events,
};
use requests::{Request, read_request};
use units::{Elapsed, Milliseconds};

// How many entries are logged.
fn logged_in(log: Log) -> u8
    ensures { result ≡ length (log_logged log) }
{
    log.len() as u8
}

// What the reader made of a frame, unless its destination or its source is refused: the source found its
// requester, or did not (a flag, since `find` gives a place and no Option).
fn admit(
    destination: [u8; 6],
    found: bool,
    read: Result<Request, Refusal>,
) -> Result<Request, Refusal>
    ensures { request_read result ≡ admitted destination found (request_read read) }
{
    if is_group(destination) {
        return Err(Cause::GroupDestination.at(0));
    }
    if !found {
        return Err(Cause::UnknownRequester.at(0));
    }
    read
}

// What an accepted frame makes of its requester, beside a log of so many events.
fn renewed(r: Requester, q: Request, logged: u8, now: Elapsed) -> Requester
    ensures { (log : List Entry) → logged ≡ length log → view_requester result ≡ take_kind now.0 log (accepted_request q) (view_requester r) q.kind }
{
    let mut x = r;
    if renews_events(q, r.events) {
        x.events = new_events(q, logged);
    }
    if renews_diagnostics(q, r.diagnostics) {
        x.diagnostics = new_diagnostics(q, now);
    }
    x
}

// What a frame from a source to a destination changes, which its reader may have refused. A source that
// finds no requester has the place behind the last.
fn take_request(
    g: Station,
    destination: [u8; 6],
    source: [u8; 6],
    read: Result<Request, Refusal>,
) -> Changed
    ensures { view_outcome (changed_outcome g result) [] ≡ request_call destination source (request_read read) (view g) }
{
    let timer = g.timer;
    let end = g.count.min(REQUESTER_CAPACITY);
    let mut requesters = g.requesters;
    let i = find(&requesters[..end], source);
    let found = i < end;
    let at = i.min(REQUESTER_LAST);
    let answer = match admit(destination, found, read) {
        Ok(q) => {
            requesters[at] = renewed(requesters[at], q, logged_in(g.log), timer.now);
            Answer::Accepted
        }
        Err(refusal) => Answer::Refused(refusal),
    };
    Changed {
        timer,
        requesters,
        answer,
    }
}

impl Station {
    // What a frame from a source to a destination changes.
    pub fn framed(
        self,
        reading: Milliseconds,
        destination: [u8; 6],
        source: [u8; 6],
        o: &[u8],
    ) -> Changed
        ensures { view_outcome (changed_outcome self result) [] ≡ step elapsed_clock standard (view self) (frame reading.0 destination source o.now) }
    {
        let g = ticked(self, reading);
        take_request(g, destination, source, read_request(o))
    }

    // A frame from a source to a destination.
    pub fn take_frame(
        self,
        reading: Milliseconds,
        destination: [u8; 6],
        source: [u8; 6],
        o: &[u8],
    ) -> Outcome
        ensures { view_outcome result [] ≡ step elapsed_clock standard (view self) (frame reading.0 destination source o.now) }
    {
        changed(self, self.framed(reading, destination, source, o))
    }
}
