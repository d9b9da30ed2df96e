// The head of a frame: its length, category and action.
#![tactic(auto, using(laws::proofs::Choice::choices), unfolding(crate::specs::Frames::frame_kind, crate::specs::Frames::frame_cause))]

ghost use Rattle.std.specs.Prelude.{◌≡◌};
ghost use Rattle.octets.specs.Frames.{frame_kind, frame_cause};
ghost use Rattle.octets.specs.Refusals.{number_unless};

use crate::fields::octet;
use crate::numbers;
use crate::numbers::Kind;
use crate::refusals::Cause;

// The kind of a frame, by the action of a diagnostic's.
pub fn frame_kind(s: &[u8], diagnostic: u8) -> Kind
    ensures { result ≡ frame_kind s.now diagnostic }
{
    if octet(s, 1) == diagnostic {
        return Kind::Diagnostic;
    }
    Kind::Event
}

// Is a frame that is to have an action refused by its head?
pub fn check_head(s: &[u8], action: u8) -> Result<(), Cause>
    ensures { number_unless result ≡ frame_cause s.now action }
{
    if s.len() < numbers::SHORTEST_FRAME || numbers::LONGEST_FRAME < s.len() {
        return Err(Cause::BadFrameLength);
    }
    if octet(s, 0) != numbers::CATEGORY || octet(s, 1) != action {
        return Err(Cause::BadHeader);
    }
    Ok(())
}
