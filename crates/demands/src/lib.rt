// The three demands, stated in specs/ and proved in proofs/: of the model, and of the code for every
// chain of calls that the station's contracts allow. The functions here are the links of such a
// chain: each makes one call, and its contract is the chain's. One a method, also where two are of one shape
// (the events' loggings, a move and a change): each holds its own method's contract against the chain, which a
// function over a closure would not, and a trait over the events would take an impl for each and a function.
#![tactic(auto)]

ghost use Rattle.std.specs.Prelude.{[]};
ghost use Rattle.events.specs.Loggings.{transition, rsna, peer_link};
ghost use Rattle.model.specs.Model.{clock, logging, frame, report as model_report, roam as model_roam, change};
ghost use Rattle.demands.specs.Chains.{Allowed, SetUp};

use events::{PeerLink, RsnaEvent, Transition};
use octets::Kind;
use station::{Outcome, Station};
use units::Milliseconds;

pub fn setup(identity: &[u8], list: &[[u8; 7]]) -> Outcome
    ensures { SetUp identity.now list.now result }
{
    Station::setup(identity, list)
}

pub fn tick(g: Station, reading: Milliseconds) -> Outcome
    ensures { Allowed g (record { call = clock reading.0; outcome = result; buffer = [] }) }
{
    g.tick(reading)
}

pub fn log_transition(g: Station, reading: Milliseconds, t: Transition) -> Outcome
    ensures { Allowed g (record { call = logging reading.0 (transition t); outcome = result; buffer = [] }) }
{
    g.log_transition(reading, t)
}

pub fn log_rsna(g: Station, reading: Milliseconds, e: RsnaEvent, rsn: &[u8]) -> Outcome
    ensures { Allowed g (record { call = logging reading.0 (rsna e rsn.now); outcome = result; buffer = [] }) }
{
    g.log_rsna(reading, e, rsn)
}

pub fn log_peer_link(g: Station, reading: Milliseconds, e: PeerLink) -> Outcome
    ensures { Allowed g (record { call = logging reading.0 (peer_link e); outcome = result; buffer = [] }) }
{
    g.log_peer_link(reading, e)
}

pub fn take_frame(
    g: Station,
    reading: Milliseconds,
    destination: [u8; 6],
    source: [u8; 6],
    o: &[u8],
) -> Outcome
    ensures { Allowed g (record { call = frame reading.0 destination source o.now; outcome = result; buffer = [] }) }
{
    g.take_frame(reading, destination, source, o)
}

pub fn report(
    g: Station,
    reading: Milliseconds,
    source: [u8; 6],
    kind: Kind,
    buf: &mut [u8],
) -> Outcome
    ensures { Allowed g (record { call = model_report reading.0 source kind buf.old; outcome = result; buffer = buf.new }) }
{
    g.report(reading, source, kind, buf)
}

pub fn roam(g: Station, reading: Milliseconds, list: &[[u8; 7]]) -> Outcome
    ensures { Allowed g (record { call = model_roam reading.0 list.now; outcome = result; buffer = [] }) }
{
    g.roam(reading, list)
}

pub fn change_network(g: Station, reading: Milliseconds, list: &[[u8; 7]]) -> Outcome
    ensures { Allowed g (record { call = change reading.0 list.now; outcome = result; buffer = [] }) }
{
    g.change_network(reading, list)
}
