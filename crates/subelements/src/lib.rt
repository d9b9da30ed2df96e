// The subelements of one element (document 01, "Frames and elements", and causes 7 and 8 of its
// table): the table of lengths, and the one walker that reads it.
#![tactic(auto, using(laws::proofs::Choice::choices, crate::proofs::Bodies::bodies), unfolding(crate::specs::Subelements::length_of, crate::specs::Subelements::body_octet, crate::specs::Subelements::body_at))]

ghost use Rattle.std.specs.Prelude.{◌≡◌, ◌≤◌, length};
ghost use Rattle.octets.specs.Refusals.{no_refusal};
ghost use Rattle.subelements.specs.Subelements.{row_of, length_of, body_octet, body_at, walked, accepted_walk, walk_read, walk as subelements_walk, tables};

use octets::{Cause, Refusal, octet, piece_end, size};

// The subelement of one ID of the table: absent (its octets 0), or present with its body (0 past
// its length). In a request element of an event type with a table it is a condition. A flag beside
// its octets, since C lends the memory of the station, which keeps it.
#[repr(C)]
#[derive(Clone, Copy)]
pub struct Condition {
    pub present: bool,
    pub octets: [u8; 8],
}

// One that is absent.
pub const ABSENT: Condition = Condition {
    present: false,
    octets: [0; 8],
};

// How far a walk has come: the next position, the number of subelements walked, those of other IDs too, and
// the condition of each ID of the table.
#[derive(Clone, Copy)]
pub struct Subelements {
    pub at: usize,
    pub count: usize,
    pub filter: [Condition; 5],
}

// How many event types have a table: 0 transitions, 1 RSNA events, 2 peer links.
pub const TABLES: usize = 3;

// A body length, and the one where the body's first octet is 254. 0: the ID is
// reserved. No Option: an event adds its method's length, and the writer writes so many octets.
#[derive(Clone, Copy)]
pub struct Length {
    pub plain: usize,
    pub expanded: usize,
}

// Literals: no function makes them, since a constant's value may not call one.
const RESERVED: Length = Length {
    plain: 0,
    expanded: 0,
};

const ONE: Length = Length {
    plain: 1,
    expanded: 1,
};

const TWO: Length = Length {
    plain: 2,
    expanded: 2,
};

const THREE: Length = Length {
    plain: 3,
    expanded: 3,
};

const FOUR: Length = Length {
    plain: 4,
    expanded: 4,
};

const SIX: Length = Length {
    plain: 6,
    expanded: 6,
};

const METHOD: Length = Length {
    plain: 1,
    expanded: 8,
};

// The body lengths by event type and subelement ID.
const LENGTHS: [[Length; 5]; TABLES] = [
    [SIX, SIX, TWO, ONE, THREE],
    [SIX, FOUR, METHOD, ONE, RESERVED],
    [SIX, TWO, RESERVED, RESERVED, RESERVED],
];

fn row_of(ty: usize, id: usize) -> Length
    ensures { result ≡ row_of ty id }
{
    if TABLES <= ty {
        return RESERVED;
    }
    if 5 <= id {
        return RESERVED;
    }
    LENGTHS[ty][id]
}

// The body length of an ID of a type's table, by the body's first octet; 0 where there is none, as in a Length.
// Type and ID are the table's row and column.
pub fn length_of(ty: usize, id: usize, first: u8) -> usize
    ensures { result ≡ length_of ty id first }
{
    let row = row_of(ty, id);
    if first == 254 {
        row.expanded
    } else {
        row.plain
    }
}

// Octet k of a body of n octets, 0 past its end. The last line is `octet` written out: with a call of it, a frame of
// 8 elements takes 5,413 instructions for 5,249.
fn body_octet(s: &[u8], at: usize, n: usize, k: usize) -> u8
    requires { at ≤ length s.now }
    ensures { result ≡ body_octet s.now at n k }
{
    if n <= k {
        return 0;
    }
    if k < s.len() - at { s[at + k] } else { 0 }
}

// A body of n octets, in eight places, 0 past its end. By `array::from_fn`, whose contract speaks of calls, the
// check does not find the eight places.
pub fn body(s: &[u8], at: usize, n: usize) -> [u8; 8]
    ensures { result ≡ body_at s.now at n }
{
    let from = at.min(s.len());
    [
        body_octet(s, from, n, 0),
        body_octet(s, from, n, 1),
        body_octet(s, from, n, 2),
        body_octet(s, from, n, 3),
        body_octet(s, from, n, 4),
        body_octet(s, from, n, 5),
        body_octet(s, from, n, 6),
        body_octet(s, from, n, 7),
    ]
}

// A walk with no subelement yet.
fn walk_from(at: usize) -> Subelements
    ensures { accepted_walk result ≡ walked no_refusal at }
{
    Subelements {
        at,
        count: 0,
        filter: [ABSENT; 5],
    }
}

// The subelements of a request element of an event type, from a position to its end. A type without a
// table has them walked for their edges only. A loop: each length tells where the next one starts.
pub fn walk(s: &[u8], ty: usize, from: usize, end: usize) -> Result<Subelements, Refusal>
    ensures { walk_read result ≡ subelements_walk s.now ty from end }
{
    let mut w = walk_from(from);
    while w.at < end {
        let at = w.at;
        let Some(next) = piece_end(s, at, end) else {
            return Err(Cause::BadSubelement.at(at));
        };
        w.count += 1;
        w.at = next;
        let id = size(s, at);
        let want = length_of(ty, id, octet(s, at + 2));
        if want == 0 {
            continue;
        }
        let n = size(s, at + 1);
        if n != want {
            return Err(Cause::BadSubelement.at(at));
        }
        let old = w.filter[id];
        if old.present {
            return Err(Cause::RepeatedSubelement.at(at));
        }
        w.filter[id] = Condition {
            present: true,
            octets: body(s, at + 2, n),
        };
    }
    Ok(w)
}

// The subelements of a diagnostic report, which are walked for their edges only: no table has them.
pub fn walk_edges(s: &[u8], from: usize, end: usize) -> Result<Subelements, Refusal>
    ensures { walk_read result ≡ subelements_walk s.now tables from end }
{
    walk(s, TABLES, from, end)
}
