// The edges of elements and subelements: ID, length, body.
#![tactic(auto, using(laws::proofs::Choice::choices, crate::proofs::ElementLaws::placed_some), unfolding(crate::specs::Elements::piece_end))]

ghost use Rattle.std.specs.Prelude.{◌≡◌};
ghost use Rattle.octets.specs.Elements.{piece_end, placed};

use crate::fields::size;

// Where the element or subelement at a position ends; none where its header or its body passes the end.
pub fn piece_end(s: &[u8], at: usize, end: usize) -> Option<usize>
    ensures { result ≡ placed (piece_end s.now at end) }
{
    if end <= at {
        return None;
    }
    if end - at < 2 {
        return None;
    }
    let n = size(s, at + 1);
    if end - at - 2 < n {
        return None;
    }
    Some(at + 2 + n)
}
