// The explanation of an absent event for C (include/dultxibe.h), an archive of its own: in the gate's,
// the reader of elements and the conditions would have a second caller, and no longer be put in line.
#![tactic(auto, unfolding(crate::specs::Numbers::numbered_explanation))]

ghost use Rattle.std.specs.Prelude.{◌≡◌};
ghost use Rattle.units.specs.Time.{elapsed_since};
ghost use Rattle.octets.specs.Refusals.{refusal_of};
ghost use Rattle.explanations.specs.Explanations.{Refused, explanation, reason_given};
ghost use Rattle.station.specs.Views.{view};
ghost use Rattle.firmware_explain.specs.Numbers.{explained, numbered_explanation};

use octets::Refusal;
use station::Station;

// Why an event is absent: reason 1 logged after acceptance, 2 wrong type, 3 a condition of an ID is not
// met, 4 limit reached, 5 it is reported; or 0, refused by a cause at a place. What a reason does not have
// is 0. Numbers, since C reads them.
#[repr(C)]
#[derive(Clone, Copy)]
pub struct Explanation {
    pub reason: u8,
    pub condition: u8,
    pub cause: u8,
    pub place: usize,
}

impl Explanation {
    // A reason without anything behind it.
    fn plain(reason: u8) -> Explanation
        ensures { result ≡ explained reason 0 0 0 }
    {
        Explanation {
            reason,
            condition: 0,
            cause: 0,
            place: 0,
        }
    }
}

impl From<explanations::Explanation> for Explanation {
    ghost from_gives = { λ e numbers. numbers ≡ numbered_explanation (reason_given e) };

    // Each case has its number; one has a condition besides.
    fn from(e: explanations::Explanation) -> Explanation {
        match e {
            explanations::Explanation::LoggedAfter => Explanation::plain(1),
            explanations::Explanation::WrongType => Explanation::plain(2),
            explanations::Explanation::Unmet(condition) => Explanation {
                condition,
                ..Explanation::plain(3)
            },
            explanations::Explanation::LimitReached => Explanation::plain(4),
            explanations::Explanation::Reported => Explanation::plain(5),
        }
    }
}

impl From<Refusal> for Explanation {
    ghost from_gives = { λ r numbers. numbers ≡ numbered_explanation (Refused (refusal_of r)) };

    fn from(refusal: Refusal) -> Explanation {
        Explanation {
            cause: refusal.cause.number(),
            place: refusal.place,
            ..Explanation::plain(0)
        }
    }
}

// Why the event at a position of the station's log is absent from the reports of an element.
#[unsafe(no_mangle)]
pub extern "C" fn dultxibe_explain(
    g: Station,
    element: &[u8],
    count: usize,
    position: usize,
) -> Explanation
    ensures { result ≡ numbered_explanation (explanation elapsed_since (view g).log element.now count position) }
{
    match g.explain(element, count, position) {
        Ok(reason) => Explanation::from(reason),
        Err(refusal) => Explanation::from(refusal),
    }
}
