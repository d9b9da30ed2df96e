// The bare clock reading, which every call begins with.
ghost use Rattle.std.specs.Prelude.{◌≡◌, []};
ghost use Rattle.model.specs.Clocks.{elapsed_clock};
ghost use Rattle.model.specs.Model.{standard, clock};
ghost use Rattle.model.specs.Stations.{tick as stations_tick, step};
ghost use Rattle.station.specs.Internal.{ticked_station};
ghost use Rattle.station.specs.Views.{view, view_outcome};

use crate::outcomes::accepted_with;
use crate::requester_lists::{late_dropped, tick_requesters};
use crate::timers::advanced;
use crate::{Outcome, Station};
use model::REQUESTER_CAPACITY;
use units::Milliseconds;

// What every call makes of the station first: its time is the call's, then the late drop.
pub(crate) fn ticked(g: Station, reading: Milliseconds) -> Station
    ensures viewed { view result ≡ stations_tick elapsed_clock reading.0 (view g) }
    ensures whole { result ≡ ticked_station g reading.0 result.requesters }
{
    let timer = advanced(g.timer, reading);
    Station {
        timer,
        requesters: late_dropped(g.requesters, g.count, timer.now),
        ..g
    }
}

// The same of a station where it stands.
pub(crate) fn tick_in_place(g: &mut Station, reading: Milliseconds)
    ensures { view g.new ≡ stations_tick elapsed_clock reading.0 (view g.old) }
{
    let timer = advanced(g.timer, reading);
    let end = g.count.min(REQUESTER_CAPACITY);
    g.timer = timer;
    tick_requesters(&mut g.requesters[..end], timer.now);
}

impl Station {
    // A bare clock reading.
    pub fn tick(self, reading: Milliseconds) -> Outcome
        ensures { view_outcome result [] ≡ step elapsed_clock standard (view self) (clock reading.0) }
    {
        accepted_with(ticked(self, reading))
    }
}
