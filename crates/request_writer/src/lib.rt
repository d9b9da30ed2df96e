// Request frames (document 01, "Frames and elements" and "Why a call is turned away"): the writer,
// and what is written read back.
#![tactic(auto)]

ghost use Rattle.std.specs.Prelude.{◌≡◌, ◌≤◌, ◌<◌, length, take};
ghost use Rattle.laws.specs.Buffers.{onto};
ghost use Rattle.request_writer.specs.Frames.{condition_length, condition_octets, filter_octets, element_octets, elements_octets};
ghost use Rattle.requests.specs.Requests.{request_read};
ghost use Rattle.request_writer.specs.Writer.{elements_answer, outcome, written, write_request};
ghost use Rattle.request_writer.specs.ReadBack.{echoed};

use octets::{Cause, Kind, Refusal, copy, high, low, numbers, put};
use requests::{ELEMENT_CAPACITY, Element, Request, bad_token, lacks_element, read_request};
use subelements::{Condition, length_of};

// The octets of an element at most: an event's with its five conditions.
const LONGEST_ELEMENT: usize = 33;

// The octets of the most elements that a frame has.
const LONGEST_BODY: usize = ELEMENT_CAPACITY * LONGEST_ELEMENT;

// How many octets of a condition are written.
#[tactic(auto, using(laws::proofs::Choice::choices), unfolding(crate::specs::Frames::condition_length))]
fn condition_length(ty: usize, id: usize, c: Condition) -> usize
    ensures { (result ≡ condition_length ty id c) × (result ≤ 8) }
{
    if !c.present {
        return 0;
    }
    length_of(ty, id, c.octets[0])
}

// A condition at the front of a buffer; its length. 0 octets are none: a length, as `length_of` gives it.
fn put_condition(buf: &mut [u8], ty: usize, id: usize, c: Condition) -> usize
    requires { (id < 5) × (length (condition_octets ty id c) ≤ length buf.old) }
    ensures length { result ≡ length (condition_octets ty id c) }
    ensures put { buf.new ≡ onto (condition_octets ty id c) buf.old }
{
    let n = condition_length(ty, id, c);
    if n == 0 {
        return 0;
    }
    let o = c.octets;
    let octets = [
        id as u8, n as u8, o[0], o[1], o[2], o[3], o[4], o[5], o[6], o[7],
    ];
    copy(&octets[..2 + n], buf)
}

// The conditions of an event type, in rising ID order.
fn put_filter(buf: &mut [u8], ty: usize, filter: [Condition; 5]) -> usize
    requires { length (filter_octets ty filter) ≤ length buf.old }
    ensures length { (result ≡ length (filter_octets ty filter)) × (result ≤ 28) }
    ensures put { buf.new ≡ onto (filter_octets ty filter) buf.old }
{
    let mut at: usize = 0;
    for (id, c) in filter.iter().enumerate() {
        at += put_condition(&mut buf[at..], ty, id, *c);
    }
    at
}

fn put_event(buf: &mut [u8; LONGEST_ELEMENT], e: Element) -> usize
    ensures length { (result ≡ length (element_octets Kind.Event e)) × (result ≤ 33) }
    ensures put { buf.new ≡ onto (element_octets Kind.Event e) buf.old }
{
    let filter = e.filter;
    let n = put_filter(&mut buf[5..], e.ty as usize, filter);
    let octets = [
        Kind::Event.request_id(),
        (3 + n) as u8,
        e.token,
        e.ty,
        e.limit,
    ];
    copy(&octets, buf);
    5 + n
}

fn put_diagnostic(buf: &mut [u8; LONGEST_ELEMENT], e: Element) -> usize
    ensures length { (result ≡ length (element_octets Kind.Diagnostic e)) × (result ≤ 33) }
    ensures put { buf.new ≡ onto (element_octets Kind.Diagnostic e) buf.old }
{
    let octets = [
        Kind::Diagnostic.request_id(),
        4,
        e.token,
        e.ty,
        low(e.timeout),
        high(e.timeout),
    ];
    copy(&octets, buf)
}

// An element at the front of a buffer; its length.
fn put_element(buf: &mut [u8], kind: Kind, e: Element) -> usize
    requires { 33 ≤ length buf.old }
    ensures length { (result ≡ length (element_octets kind e)) × (result ≤ 33) }
    ensures put { buf.new ≡ onto (element_octets kind e) buf.old }
{
    let Some(front) = buf.first_chunk_mut() else {
        unreachable!()
    };
    match kind {
        Kind::Event => put_event(front, e),
        Kind::Diagnostic => put_diagnostic(front, e),
    }
}

// The elements at the front of a buffer, as they stand behind the header; where a frame of them ends. Where
// one is refused, the buffer has those before it. A loop by index: a count past the array is refused where it is met.
fn put_elements(buf: &mut [u8; LONGEST_BODY], q: Request) -> Result<usize, Refusal>
    ensures answer { written result ≡ elements_answer q.kind q.elements q.count }
    ensures fits { (written result).length ≤ 267 }
    ensures put { (written result).refusal.number ≡ 0 → buf.new ≡ onto (elements_octets q.kind (take q.count q.elements)) buf.old }
{
    let es = q.elements;
    let mut at: usize = 0;
    for i in 0..q.count {
        if ELEMENT_CAPACITY <= i {
            return Err(Cause::TooManyElements.at(3 + at));
        }
        let e = es[i];
        if bad_token(q.kind, &es[..i], e.token) {
            return Err(Cause::BadElementToken.at(3 + at));
        }
        at += put_element(&mut buf[at..], q.kind, e);
    }
    Ok(3 + at)
}

// Writes a request frame at the front of a buffer, or nothing where it is refused; the frame's length. Of
// the elements the first count.
pub fn write_request(q: Request, buf: &mut [u8]) -> Result<usize, Refusal>
    ensures { outcome (written result) buf.new ≡ write_request q.kind q.dialog q.elements q.count buf.old }
{
    if buf.len() < numbers::REQUEST_BUFFER {
        return Err(Cause::ShortBuffer.at(0));
    }
    if q.dialog == 0 {
        return Err(Cause::ZeroDialogToken.at(0));
    }
    let mut body = [0u8; LONGEST_BODY];
    let length = put_elements(&mut body, q)?;
    if lacks_element(q.kind, q.count) {
        return Err(Cause::NoElement.at(0));
    }
    let n = length - 3;
    let header = [numbers::CATEGORY, q.kind.request_action(), q.dialog];
    put(buf, 0, &header);
    put(buf, 3, &body[..n]);
    Ok(length)
}

// A request written, and read back; of one that is refused, no octet.
pub fn echo(q: Request) -> Result<Request, Refusal>
    ensures { request_read result ≡ echoed q.kind q.dialog q.elements q.count }
{
    let mut buf = [0u8; numbers::REQUEST_BUFFER];
    let n = write_request(q, &mut buf).unwrap_or(0);
    read_request(&buf[..n])
}
