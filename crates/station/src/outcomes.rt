// What a call gives: a station and an answer.
ghost use Rattle.std.specs.Prelude.{◌≡◌, List, ℕ};
ghost use Rattle.octets.specs.Refusals.{refused, cause_number, number_unless};
ghost use Rattle.requesters.specs.Views.{view_requester, view_answer, view_served};
ghost use Rattle.model.specs.Stations.{result as plain_result, refused_for, served};
ghost use Rattle.station.specs.Internal.{answer_to, accepted_outcome};
ghost use Rattle.station.specs.Views.{view, view_outcome, changed_outcome};

use crate::{Changed, Outcome, Station};
use octets::Cause;
use requesters::{Answer, Requester, Served};

// The answer to a call of the station itself, by whether it is refused. No `From`: that the place is 0 holds of
// these calls alone.
pub(crate) fn answer_of(check: Result<(), Cause>) -> Answer
    ensures { view_answer result ≡ answer_to (refused (number_unless check) 0) }
{
    match check {
        Ok(()) => Answer::Accepted,
        Err(cause) => Answer::Refused(cause.at(0)),
    }
}

pub(crate) fn accepted_with(station: Station) -> Outcome
    ensures { result ≡ accepted_outcome station }
{
    Outcome {
        station,
        answer: Answer::Accepted,
    }
}

// Refused by a cause of the station itself, at place 0.
pub(crate) fn refused_with(station: Station, cause: Cause) -> Outcome
    ensures { ((buffer : List ℕ) → view_outcome result buffer ≡ plain_result (view station) (refused_for (cause_number cause)) buffer) }
{
    Outcome {
        station,
        answer: Answer::Refused(cause.at(0)),
    }
}

// The station with what a call changes of it, and the answer. Its array goes through a variable: from a field straight
// into a literal the toolchain's borrow checker takes none, here and in `renamed`.
pub(crate) fn changed(g: Station, c: Changed) -> Outcome
    ensures { result ≡ changed_outcome g c }
{
    let requesters = c.requesters;
    Outcome {
        station: Station {
            timer: c.timer,
            requesters,
            ..g
        },
        answer: c.answer,
    }
}

// A requester that a call leaves as it is, refused by a cause at place 0. Beside `refused_with`: a trait over both
// types would be longer than the two, and in one generic struct for both no field would say what is left.
pub(crate) fn left_alone(requester: Requester, cause: Cause) -> Served
    ensures { ((buffer : List ℕ) → view_served result buffer ≡ served (view_requester requester) (refused_for (cause_number cause)) buffer) }
{
    Served {
        requester,
        answer: Answer::Refused(cause.at(0)),
    }
}
