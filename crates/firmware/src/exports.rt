// Setup, and the calls on a station, which they change in place: each is the station's method on what stands
// there. A function for each name of C, with the parameters that C hands in, as they come.
ghost use Rattle.std.specs.Prelude.{◌≡◌, List, [], ℕ};
ghost use Rattle.events.specs.Loggings.{transition, rsna, peer_link};
ghost use Rattle.model.specs.Clocks.{elapsed_clock};
ghost use Rattle.model.specs.Model.{standard, clock, logging, frame, report, roam, change};
ghost use Rattle.model.specs.Stations.{setup, step};
ghost use Rattle.octets.specs.Numbers.{kind_of};
ghost use Rattle.station.specs.Views.{view, view_outcome, changed_outcome};
ghost use Rattle.firmware.specs.Numbers.{numbered, viewed, left_with};

use crate::{Outcome, Reply};
use events::{PeerLink, RsnaEvent, Transition};
use octets::Kind;
use station::{Changed, Station};
use units::Milliseconds;

// Leaves what a call made of a station where that stands.
fn left(g: &mut Station, after: station::Outcome) -> Reply
    ensures { (buffer : List ℕ) → left_with g.new result buffer ≡ numbered (view_outcome after buffer) }
{
    *g = after.station;
    Reply::from(after.answer)
}

// The same of a frame and a report, of which what they change is stored alone: the compiler cannot tell that
// a lent buffer lies outside the station, and would copy the log out and back. The requesters go through a variable:
// an array is not stored straight from a field, which the toolchain's borrow checker does not cover.
fn left_changed(g: &mut Station, after: Changed) -> Reply
    ensures { (buffer : List ℕ) → left_with g.new result buffer ≡ numbered (view_outcome (changed_outcome g.old after) buffer) }
{
    let requesters = after.requesters;
    g.timer = after.timer;
    g.requesters = requesters;
    Reply::from(after.answer)
}

// Names the identity and the requesters.
#[unsafe(no_mangle)]
pub extern "C" fn dultxibe_setup(identity: &[u8], list: &[[u8; 7]]) -> Outcome
    ensures { viewed result [] ≡ numbered (setup standard identity.now list.now) }
{
    let after = Station::setup(identity, list);
    Outcome {
        station: after.station,
        reply: Reply::from(after.answer),
    }
}

// A bare clock reading.
#[unsafe(no_mangle)]
pub extern "C" fn dultxibe_tick(g: &mut Station, reading: u32) -> Reply
    ensures { left_with g.new result [] ≡ numbered (step elapsed_clock standard (view g.old) (clock reading)) }
{
    let after = (*g).tick(Milliseconds(reading));
    left(g, after)
}

// Logs a transition, which the reading ends.
#[unsafe(no_mangle)]
#[tactic(auto, unfolding(station::specs::Views::view_outcome))]
pub extern "C" fn dultxibe_log_transition(g: &mut Station, reading: u32, t: Transition) -> Reply
    ensures { left_with g.new result [] ≡ numbered (step elapsed_clock standard (view g.old) (logging reading (transition t))) }
{
    Reply::from(g.transition_logged(Milliseconds(reading), t))
}

// Logs an RSNA event, with its RSN element.
#[unsafe(no_mangle)]
#[tactic(auto, unfolding(station::specs::Views::view_outcome))]
pub extern "C" fn dultxibe_log_rsna(
    g: &mut Station,
    reading: u32,
    e: RsnaEvent,
    rsn: &[u8],
) -> Reply
    ensures { left_with g.new result [] ≡ numbered (step elapsed_clock standard (view g.old) (logging reading (rsna e rsn.now))) }
{
    Reply::from(g.rsna_logged(Milliseconds(reading), e, rsn))
}

// Logs a peer-to-peer link event.
#[unsafe(no_mangle)]
#[tactic(auto, unfolding(station::specs::Views::view_outcome))]
pub extern "C" fn dultxibe_log_peer_link(g: &mut Station, reading: u32, e: PeerLink) -> Reply
    ensures { left_with g.new result [] ≡ numbered (step elapsed_clock standard (view g.old) (logging reading (peer_link e))) }
{
    Reply::from(g.peer_link_logged(Milliseconds(reading), e))
}

// A frame from a source to a destination.
#[unsafe(no_mangle)]
pub extern "C" fn dultxibe_frame(
    g: &mut Station,
    reading: u32,
    destination: &[u8; 6],
    source: &[u8; 6],
    o: &[u8],
) -> Reply
    ensures { left_with g.new result [] ≡ numbered (step elapsed_clock standard (view g.old) (frame reading destination.now source.now o.now)) }
{
    let after = (*g).framed(Milliseconds(reading), *destination, *source, o);
    left_changed(g, after)
}

// A report of a kind for a requester, into a lent buffer.
#[unsafe(no_mangle)]
pub extern "C" fn dultxibe_report(
    g: &mut Station,
    reading: u32,
    requester: &[u8; 6],
    kind: u8,
    buf: &mut [u8],
) -> Reply
    ensures { left_with g.new result buf.new ≡ numbered (step elapsed_clock standard (view g.old) (report reading requester.now (kind_of kind) buf.old)) }
{
    let after = (*g).reported(Milliseconds(reading), *requester, Kind::from(kind), buf);
    left_changed(g, after)
}

// A move inside the network.
#[unsafe(no_mangle)]
pub extern "C" fn dultxibe_roam(g: &mut Station, reading: u32, list: &[[u8; 7]]) -> Reply
    ensures { left_with g.new result [] ≡ numbered (step elapsed_clock standard (view g.old) (roam reading list.now)) }
{
    let after = (*g).roam(Milliseconds(reading), list);
    left(g, after)
}

// A network change.
#[unsafe(no_mangle)]
pub extern "C" fn dultxibe_change_network(g: &mut Station, reading: u32, list: &[[u8; 7]]) -> Reply
    ensures { left_with g.new result [] ≡ numbered (step elapsed_clock standard (view g.old) (change reading list.now)) }
{
    let after = (*g).change_network(Milliseconds(reading), list);
    left(g, after)
}
