// The elements of a request writer's record.
ghost use Rattle.std.specs.Prelude.{◌≡◌, ◌≤◌, ◌<◌, IfSome, if◌then◌else◌};
ghost use Rattle.traces.specs.Places.{unless_refused, found};
ghost use Rattle.traces.specs.Elements.{condition_table, traced_length, with_condition, conditions_at, bad_value, limit_of, timeout_of, traced_element_at, with_traced, elements_at};

use crate::places::behind;
use octets::{Kind, octet, pair_at, size};
use requests::{ELEMENT_CAPACITY, Element, blank_element, blank_elements};
use subelements::{Condition, TABLES, body, length_of};

// The first conditions of an element, and where they end. The next ID is not below the least one.
#[derive(Clone, Copy)]
struct Conditions {
    pub end: usize,
    pub least: usize,
    pub filter: [Condition; 5],
}

// One element, and where it ends.
#[derive(Clone, Copy)]
struct Recorded {
    pub end: usize,
    pub element: Element,
}

// The first eight elements, and where all of them end.
#[derive(Clone, Copy)]
pub struct Elements {
    pub end: usize,
    pub elements: [Element; ELEMENT_CAPACITY],
}

// The event type whose table an element's conditions follow.
fn condition_table(kind: Kind, ty: u8) -> usize
    ensures { result ≡ condition_table kind ty }
{
    match kind {
        Kind::Event => {
            let ty = ty as usize;
            if ty < TABLES { ty } else { 0 }
        }
        Kind::Diagnostic => 0,
    }
}

// The length of a condition of an ID, where one has it: an EAP method is recorded in the length of one that
// starts with 254.
fn traced_length(ty: usize, id: usize) -> Option<usize>
    ensures length { result ≡ found (traced_length ty id) }
    ensures known { IfSome result (λ n. (n ≤ 8) × (id < 5)) }
{
    match length_of(ty, id, 254) {
        0 => None,
        n => Some(n),
    }
}

// One more condition, in the place of its ID.
fn with_condition(s: &[u8], ty: usize, w: Conditions) -> Option<Conditions>
    ensures { let more = with_condition s.now ty w in result ≡ unless_refused more.end more }
{
    let at = w.end;
    behind(s, at, 2)?;
    let id = size(s, at);
    if id < w.least {
        return None;
    }
    let n = traced_length(ty, id)?;
    if size(s, at + 1) != n {
        return None;
    }
    let end = behind(s, at, 2 + n)?;
    let mut filter = w.filter;
    filter[id] = Condition {
        present: true,
        octets: body(s, at + 2, n),
    };
    Some(Conditions {
        end,
        least: id + 1,
        filter,
    })
}

// So many conditions with rising IDs.
fn conditions_at(s: &[u8], ty: usize, count: u8, from: usize) -> Option<Conditions>
    requires { 0 < from }
    ensures { let all = conditions_at s.now ty count from in result ≡ unless_refused all.end all }
{
    let blank = blank_element();
    let filter = blank.filter;
    let mut w = Conditions {
        end: from,
        least: 0,
        filter,
    };
    for _i in 0..count {
        w = with_condition(s, ty, w)?;
    }
    Some(w)
}

// The limit and the timeout of an element; an event has the one, a diagnostic the other. A limit is below 256.
fn limits_of(kind: Kind, value: u16) -> Option<(u8, u16)>
    ensures { result ≡ (if bad_value kind value then None else Some (record { 0 = limit_of kind value; 1 = timeout_of kind value })) }
{
    match kind {
        Kind::Event if value < 256 => Some((value as u8, 0)),
        Kind::Event => None,
        Kind::Diagnostic => Some((0, value)),
    }
}

// The element at a position: token, type, limit or timeout, conditions.
fn element_at(s: &[u8], kind: Kind, at: usize) -> Option<Recorded>
    ensures { let r = traced_element_at s.now kind at in result ≡ unless_refused r.end r }
{
    let from = behind(s, at, 5)?;
    let value = pair_at(s, at + 2);
    let (limit, timeout) = limits_of(kind, value)?;
    let ty = octet(s, at + 1);
    let conditions = conditions_at(s, condition_table(kind, ty), octet(s, at + 4), from)?;
    let filter = conditions.filter;
    Some(Recorded {
        end: conditions.end,
        element: Element {
            token: octet(s, at),
            ty,
            limit,
            subs: 0,
            timeout,
            filter,
        },
    })
}

// One more element, in its place, where there is such a place.
#[tactic(auto, using(std::proofs::lemmas::List::set_past), unfolding(crate::specs::Elements::with_traced))]
fn with_element(w: Elements, i: u8, r: Recorded) -> Elements
    ensures { result ≡ with_traced w i r }
{
    let mut elements = w.elements;
    let place = i as usize;
    if place < elements.len() {
        elements[place] = r.element;
    }
    Elements {
        end: r.end,
        elements,
    }
}

// So many elements from a position on; from 0 none, since the definitions write 0 for no place.
pub fn elements_at(s: &[u8], kind: Kind, count: u8, from: usize) -> Option<Elements>
    ensures { let all = elements_at s.now kind count from in result ≡ unless_refused all.end all }
{
    if from == 0 {
        return None;
    }
    let mut w = Elements {
        end: from,
        elements: blank_elements(),
    };
    for i in 0..count {
        w = with_element(w, i, element_at(s, kind, w.end)?);
    }
    Some(w)
}
