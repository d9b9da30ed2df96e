// The identity (IEEE: Manufacturer Information): the table of its subelements, and the one walk over
// it.
#![tactic(auto, using(laws::proofs::Choice::choices), unfolding(crate::specs::Identity::stands, crate::specs::Identity::pass_row, crate::specs::Identity::good_identity))]

ghost use Rattle.std.specs.Prelude.{◌≡◌};
ghost use Rattle.identities.specs.Identity.{rows, stands as identity_stands, turn, pass_row, good_from, good_identity};

use octets::{octet, piece_end, size};

// A row of the table: a subelement's ID, whether it must stand, and the least and the most octets of
// its body.
#[derive(Clone, Copy)]
struct Row {
    pub id: u8,
    pub must: bool,
    pub least: usize,
    pub most: usize,
}

// The most octets of an identity.
const LONGEST: usize = 252;

const ROWS: [Row; 10] = [
    Row {
        id: 13,
        must: true,
        least: 3,
        most: 3,
    },
    Row {
        id: 11,
        must: true,
        least: 1,
        most: 249,
    },
    Row {
        id: 12,
        must: true,
        least: 1,
        most: 249,
    },
    Row {
        id: 14,
        must: true,
        least: 1,
        most: 249,
    },
    Row {
        id: 9,
        must: true,
        least: 1,
        most: 249,
    },
    Row {
        id: 4,
        must: false,
        least: 1,
        most: 249,
    },
    Row {
        id: 3,
        must: false,
        least: 1,
        most: 1,
    },
    Row {
        id: 6,
        must: false,
        least: 1,
        most: 1,
    },
    Row {
        id: 7,
        must: false,
        least: 1,
        most: 1,
    },
    Row {
        id: 21,
        must: false,
        least: 1,
        most: 249,
    },
];

// Does the subelement of a row stand at a position?
fn stands(s: &[u8], at: usize, row: Row) -> bool
    ensures { result ≡ identity_stands s.now at row }
{
    at < s.len() && octet(s, at) == row.id
}

// One row's turn, at a position: the position behind it, or none where it is not fine.
fn pass_row(s: &[u8], at: usize, row: Row) -> Option<usize>
    ensures { turn at result ≡ pass_row s.now at row }
{
    if !stands(s, at, row) {
        return if row.must { None } else { Some(at) };
    }
    let next = piece_end(s, at, s.len())?;
    let n = size(s, at + 1);
    if n < row.least || row.most < n {
        return None;
    }
    Some(next)
}

// All rows in their order; behind the last one nothing is left.
#[tactic(auto, using(laws::proofs::Choice::choices, crate::proofs::Laws::rows_next, crate::proofs::Laws::rows_stop, crate::proofs::Laws::rows_end))]
fn pass_rows(s: &[u8]) -> bool
    ensures { result ≡ good_from s.now 0 rows }
{
    let mut at: usize = 0;
    for row in &ROWS {
        let Some(next) = pass_row(s, at, *row) else {
            return false;
        };
        at = next;
    }
    at == s.len()
}

// Is it an identity (cause 16 where not)?
pub fn good_identity(s: &[u8]) -> bool
    ensures { result ≡ good_identity s.now }
{
    s.len() <= LONGEST && pass_rows(s)
}
