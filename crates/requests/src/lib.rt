// Request frames (document 01, "Frames and elements", and causes 1 to 10 of its table): the fields
// and the reader. Functions take the frame and a position in it, not its parts: refusals name positions.
#![tactic(auto)]

ghost use Rattle.std.specs.Prelude.{◌≡◌, ◌+◌, ◌≤◌, ◌<◌, length, get_or, take};
ghost use Rattle.octets.specs.Refusals.{number_unless};
ghost use Rattle.subelements.specs.Subelements.{accepted_walk, walk_read};
ghost use Rattle.requests.specs.Elements.{element_capacity, least_body, limit_at, timeout_at, table_of, subelements_of, element_of, blank_element, blank_elements, has_token, zero_token, bad_token, walk_elements};
ghost use Rattle.requests.specs.Internal.{subelements_start};
ghost use Rattle.requests.specs.OneElement.{element_read, read_element};
ghost use Rattle.requests.specs.Requests.{lacks_element, request_of, request_read, header_cause, read_request};

use octets::{Cause, Kind, Refusal, check_head, frame_kind, octet, pair_at, piece_end, size};
use subelements::{ABSENT, Condition, Subelements, TABLES, walk};

// The most elements that a request has.
pub const ELEMENT_CAPACITY: usize = 8;

// One request element: its token and type (ty), the response limit of an event, the timeout in
// seconds of a diagnostic, the number of subelements walked, and the conditions of an event
// type that has a table.
// What the kind of the frame does not have is 0. The fields lie without a gap: blank elements are then
// one run of zeros.
#[repr(C)]
#[derive(Clone, Copy)]
pub struct Element {
    pub token: u8,
    pub ty: u8,
    pub timeout: u16,
    pub subs: u16,
    pub limit: u8,
    pub filter: [Condition; 5],
}

// What a reader finds: a request of count elements; the places past them are blank. An array and a
// count, no ArrayVec: its elements become part of the station's memory, which C lends, by one copy.
#[derive(Clone, Copy)]
pub struct Request {
    pub kind: Kind,
    pub dialog: u8,
    pub count: usize,
    pub elements: [Element; ELEMENT_CAPACITY],
}

// What an element of each kind has: here and in limit_of, timeout_of and table_of. No methods of Kind's own:
// only the reader of requests asks.

// The octets of a body before its subelements.
fn least_body(kind: Kind) -> usize
    ensures { result ≡ least_body kind }
{
    match kind {
        Kind::Event => 3,
        Kind::Diagnostic => 4,
    }
}

fn limit_of(x: &[u8], kind: Kind) -> u8
    ensures { result ≡ limit_at x.now kind 0 }
{
    match kind {
        Kind::Event => octet(x, 4),
        Kind::Diagnostic => 0,
    }
}

fn timeout_of(x: &[u8], kind: Kind) -> u16
    ensures { result ≡ timeout_at x.now kind 0 }
{
    match kind {
        Kind::Event => 0,
        Kind::Diagnostic => pair_at(x, 4),
    }
}

// Where the subelements of the element at a position start: at its end where its type has none that are read.
#[tactic(auto, using(laws::proofs::Choice::choices), unfolding(crate::specs::Internal::subelements_start))]
fn subelements_start(s: &[u8], kind: Kind, at: usize, end: usize) -> usize
    requires { at < 2304 }
    ensures { result ≡ subelements_start s.now kind at end }
{
    match kind {
        Kind::Event if size(s, at + 3) < TABLES => at + 5,
        Kind::Event => end,
        Kind::Diagnostic => at + 6,
    }
}

// The type whose table the subelements are held to; a diagnostic's to none.
fn table_of(kind: Kind, ty: u8) -> usize
    ensures { result ≡ table_of kind ty }
{
    match kind {
        Kind::Event => ty as usize,
        Kind::Diagnostic => TABLES,
    }
}

// The subelements of an element from at to end. One call of the walk for all: the compiler then makes
// the filter where the element is.
fn subelements_of(s: &[u8], kind: Kind, at: usize, end: usize) -> Result<Subelements, Refusal>
    requires { (at < 2304) × (end ≤ at + 257) }
    ensures walked { walk_read result ≡ subelements_of s.now kind at end }
    ensures few { (walk_read result).count < 256 }
{
    let ty = table_of(kind, octet(s, at + 3));
    walk(s, ty, subelements_start(s, kind, at, end), end)
}

// The element at the front of x.
fn element_of(x: &[u8], kind: Kind, subs: Subelements) -> Element
    requires { subs.count < 256 }
    ensures { result ≡ element_of x.now kind 0 (accepted_walk subs) }
{
    let filter = subs.filter;
    Element {
        token: octet(x, 2),
        ty: octet(x, 3),
        limit: limit_of(x, kind),
        subs: subs.count as u16,
        timeout: timeout_of(x, kind),
        filter,
    }
}

// Has one of the elements the token?
fn has_token(es: &[Element], token: u8) -> bool
    ensures { result ≡ has_token es.now token }
{
    es.iter().any(|e| e.token == token)
}

// Is a token 0 where that is refused? No twin of lacks_element: another kind, another number.
fn zero_token(kind: Kind, token: u8) -> bool
    ensures { result ≡ zero_token kind token }
{
    kind == Kind::Event && token == 0
}

// Is a token refused behind the elements?
#[tactic(auto, using(laws::proofs::Choice::choices), unfolding(crate::specs::Elements::bad_token))]
pub fn bad_token(kind: Kind, es: &[Element], token: u8) -> bool
    ensures { result ≡ bad_token kind es.now token }
{
    zero_token(kind, token) || has_token(es, token)
}

// What stands where a request has no element.
pub fn blank_element() -> Element
    ensures { result ≡ blank_element }
{
    Element {
        token: 0,
        ty: 0,
        limit: 0,
        subs: 0,
        timeout: 0,
        filter: [ABSENT; 5],
    }
}

pub fn blank_elements() -> [Element; ELEMENT_CAPACITY]
    ensures { result ≡ blank_elements }
{
    [blank_element(); ELEMENT_CAPACITY]
}

// Does a request of a kind lack its element?
pub fn lacks_element(kind: Kind, count: usize) -> bool
    ensures { result ≡ lacks_element kind count }
{
    kind == Kind::Diagnostic && count == 0
}

// The elements behind the three octets of the header. They are a local of their own, no field of what
// is returned: the compiler then makes them where the caller wants them. A loop: each length tells where the
// next one starts.
fn read_elements(s: &[u8], kind: Kind) -> Result<Request, Refusal>
    requires { length s.now ≤ 2304 }
    ensures { request_read result ≡ request_of kind (get_or s.now 2 0) (walk_elements element_capacity s.now kind) }
{
    let mut elements = blank_elements();
    let mut n: usize = 0;
    let mut next: usize = 3;
    while next < s.len() {
        let at = next;
        let Some(end) = piece_end(s, at, s.len()) else {
            return Err(Cause::ElementPastEnd.at(at));
        };
        next = end;
        if octet(s, at) != kind.request_id() {
            continue;
        }
        if ELEMENT_CAPACITY <= n {
            return Err(Cause::TooManyElements.at(at));
        }
        if size(s, at + 1) < least_body(kind) {
            return Err(Cause::ShortElement.at(at));
        }
        if bad_token(kind, &elements[..n], octet(s, at + 2)) {
            return Err(Cause::BadElementToken.at(at));
        }
        // A match and no `?`, so that the place of a refusal is the walk's own by that one's clause.
        let subs = match subelements_of(s, kind, at, end) {
            Ok(subs) => subs,
            Err(refusal) => return Err(refusal),
        };
        elements[n] = element_of(&s[at..], kind, subs);
        n += 1;
    }
    if lacks_element(kind, n) {
        return Err(Cause::NoElement.at(0));
    }
    Ok(Request {
        kind,
        dialog: octet(s, 2),
        count: n,
        elements,
    })
}

// Is the header of a frame of a kind refused?
fn check_header(s: &[u8], kind: Kind) -> Result<(), Cause>
    ensures { number_unless result ≡ header_cause s.now kind }
{
    check_head(s, kind.request_action())?;
    if octet(s, 2) == 0 {
        return Err(Cause::ZeroDialogToken);
    }
    Ok(())
}

// Reads one request frame.
pub fn read_request(s: &[u8]) -> Result<Request, Refusal>
    ensures { request_read result ≡ read_request element_capacity s.now }
{
    let kind = frame_kind(s, Kind::Diagnostic.request_action());
    // No map_err and `?`: tried, and the proof would cite names of the check's own.
    if let Err(cause) = check_header(s, kind) {
        return Err(cause.at(0));
    }
    read_elements(s, kind)
}

// Reads one event request element, all of the octets: as a frame's, with places counted in it. Its steps are
// read_elements' own, at 0 and with no element before: a function of both would have five parameters for five lines.
pub fn read_element(s: &[u8]) -> Result<Element, Refusal>
    ensures { element_read result ≡ read_element s.now }
{
    let Some(end) = piece_end(s, 0, s.len()) else {
        return Err(Cause::ElementPastEnd.at(0));
    };
    if end != s.len() {
        return Err(Cause::ElementPastEnd.at(0));
    }
    if octet(s, 0) != Kind::Event.request_id() {
        return Err(Cause::ElementPastEnd.at(0));
    }
    if size(s, 1) < least_body(Kind::Event) {
        return Err(Cause::ShortElement.at(0));
    }
    if zero_token(Kind::Event, octet(s, 2)) {
        return Err(Cause::BadElementToken.at(0));
    }
    let subs = subelements_of(s, Kind::Event, 0, end)?;
    Ok(element_of(s, Kind::Event, subs))
}
