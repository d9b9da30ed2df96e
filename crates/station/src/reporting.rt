// Report calls.
ghost use Rattle.std.specs.Prelude.{◌≡◌, length, take};
ghost use Rattle.units.specs.Time.{elapsed_since};
ghost use Rattle.model.specs.Clocks.{elapsed_clock};
ghost use Rattle.model.specs.Model.{standard, report as model_report};
ghost use Rattle.events.specs.Log.{logged};
ghost use Rattle.model.specs.Stations.{give_report, step};
ghost use Rattle.requesters.specs.Views.{view_identity, view_requester, view_served};
ghost use Rattle.station.specs.Internal.{serve_if};
ghost use Rattle.station.specs.Views.{view, view_outcome, changed_outcome};

use crate::outcomes::{changed, left_alone};
use crate::requester_lists::{find, tick_requesters};
use crate::timers::advanced;
use crate::{Changed, Outcome, Station};
use events::Log;
use model::{REQUESTER_CAPACITY, REQUESTER_LAST};
use octets::{Cause, Kind};
use report_calls::give_report;
use requesters::{Requester, Served};
use units::Milliseconds;

// A report for a requester that was found, or was not (a flag, since `find` gives a place and no Option).
fn serve_report(
    r: Requester,
    found: bool,
    identity: &[u8],
    log: Log,
    kind: Kind,
    buf: &mut [u8],
) -> Served
    ensures { view_served result buf.new ≡ serve_if found (give_report elapsed_since (view_identity (length identity.now) (take 252 identity.now)) (logged log) kind buf.old) buf.old (view_requester r) }
{
    if !found {
        return left_alone(r, Cause::UnknownRequester);
    }
    give_report(r, identity, log, kind, buf)
}

impl Station {
    // What a report for a requester, into a lent buffer, changes. The requester is found before the late
    // drop, which changes no address: of requesters that are searched behind it the compiler makes one
    // copy more. The parts go through variables: with the fields named straight, a report of nothing takes 2,388
    // instructions for 1,641.
    pub fn reported(
        self,
        reading: Milliseconds,
        source: [u8; 6],
        kind: Kind,
        buf: &mut [u8],
    ) -> Changed
        ensures { view_outcome (changed_outcome self result) buf.new ≡ step elapsed_clock standard (view self) (model_report reading.0 source kind buf.old) }
    {
        let before = self.timer;
        let timer = advanced(before, reading);
        let now = timer.now;
        let octets = self.identity;
        let identity = &octets[..self.length.min(octets.len())];
        let log = self.log;
        let end = self.count.min(REQUESTER_CAPACITY);
        let mut requesters = self.requesters;
        let i = find(&requesters[..end], source);
        tick_requesters(&mut requesters[..end], now);
        let found = i < end;
        let at = i.min(REQUESTER_LAST);
        let r = requesters[at];
        let s = serve_report(r, found, identity, log, kind, buf);
        let requester = s.requester;
        let answer = s.answer;
        requesters[at] = requester;
        Changed {
            timer,
            requesters,
            answer,
        }
    }

    // A report for a requester, into a lent buffer.
    pub fn report(
        self,
        reading: Milliseconds,
        source: [u8; 6],
        kind: Kind,
        buf: &mut [u8],
    ) -> Outcome
        ensures { view_outcome result buf.new ≡ step elapsed_clock standard (view self) (model_report reading.0 source kind buf.old) }
    {
        changed(self, self.reported(reading, source, kind, buf))
    }
}
