// Setup.
ghost use Rattle.std.specs.Prelude.{◌≡◌, [], ◌≤◌, length};
ghost use Rattle.model.specs.Model.{standard};
ghost use Rattle.model.specs.Stations.{nobody as stations_nobody, setup as stations_setup};
ghost use Rattle.station.specs.Memory.{setup_station, Leaves};
ghost use Rattle.station.specs.Views.{view, view_outcome};

use crate::outcomes::{accepted_with, refused_with};
use crate::requester_lists::{bad_list, named_requesters};
use crate::timers::unset;
use crate::{IDENTITY, Outcome, Station};
use events::blank_log;
use identities::good_identity;
use octets::{Cause, copy};

// The station without identity, log and requesters.
fn nobody() -> Station
    ensures { view result ≡ stations_nobody }
{
    Station {
        timer: unset(),
        identity: [0; IDENTITY],
        length: 0,
        log: blank_log(),
        requesters: named_requesters(&[]),
        count: 0,
    }
}

// The station of an identity, with a blank log.
fn setup_station(identity: &[u8], list: &[[u8; 7]]) -> Station
    requires { length identity.now ≤ IDENTITY }
    ensures { result ≡ setup_station identity.now list.now }
{
    let mut octets = [0u8; IDENTITY];
    copy(identity, &mut octets);
    Station {
        timer: unset(),
        identity: octets,
        length: identity.len(),
        log: blank_log(),
        requesters: named_requesters(list),
        count: list.len(),
    }
}

impl Station {
    // Names the identity and the requesters.
    pub fn setup(identity: &[u8], list: &[[u8; 7]]) -> Outcome
        ensures outcome { view_outcome result [] ≡ stations_setup standard identity.now list.now }
        ensures leaves { Leaves result (setup_station identity.now list.now) }
    {
        if bad_list(list) {
            return refused_with(nobody(), Cause::BadRequesterList);
        }
        if !good_identity(identity) {
            return refused_with(nobody(), Cause::BadIdentity);
        }
        accepted_with(setup_station(identity, list))
    }
}
