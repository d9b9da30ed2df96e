// The time of a station (document 02 (c)): the one place where a reading becomes elapsed time.
ghost use Rattle.std.specs.Prelude.{◌≡◌};
ghost use Rattle.model.specs.Clocks.{elapsed_at};
ghost use Rattle.station.specs.Views.{view_timer};
ghost use Rattle.station.specs.Memory.{unset_timer, advanced_timer};

use crate::Timer;
use units::{Elapsed, Milliseconds};

// Before the first call.
pub(crate) fn unset() -> Timer
    ensures { result ≡ unset_timer }
{
    Timer {
        now: Elapsed(0),
        last: Milliseconds(0),
        started: false,
    }
}

// The time of a call with a reading; the first one is at zero.
fn elapsed_at(t: Timer, reading: Milliseconds) -> Elapsed
    ensures { result.0 ≡ elapsed_at (view_timer t).last t.now.0 reading.0 }
{
    if !t.started {
        return Elapsed(0);
    }
    t.now.advance(reading.since(t.last))
}

// At a call with a reading.
pub(crate) fn advanced(t: Timer, reading: Milliseconds) -> Timer
    ensures { result ≡ advanced_timer t reading.0 }
{
    Timer {
        now: elapsed_at(t, reading),
        last: reading,
        started: true,
    }
}
