// The fields of each record, by a function for each: no two have the same fields in the same places. Octets past
// the end of the input are 0.
ghost use Rattle.std.specs.Prelude.{◌≡◌, ◌+◌, ◌≤◌, length, take};
ghost use Rattle.traces.specs.Records.{fields_of, milliseconds_at, times_at, requesters_at, span_at, setup_fields, transition_fields, frame_fields, report_fields, move_fields, rsna_fields, peer_link_fields, writer_fields, reader_fields, explain_fields};

use arrayvec::ArrayVec;
use events::{PeerLink, RsnaEvent, Times, Transition};
use octets::{Kind, address_at, array_at, octet, pair_at, time_at};
use units::Milliseconds;

// Octets of the input, from one position to another. No slice: the fields behind them stand at `to`, which a slice
// does not tell, and both may lie past the end of the input.
#[derive(Clone, Copy)]
pub struct Span {
    pub from: usize,
    pub to: usize,
}

// Behind the identity are a number of requesters, and they. The number and where they stand, here and in the
// calls below, are what the trace says, not a list that is held: that is read when it is asked for.
#[derive(Clone, Copy)]
pub struct SetupCall {
    pub identity: Span,
    pub count: u8,
    pub list: usize,
}

#[derive(Clone, Copy)]
pub struct FrameCall {
    pub reading: Milliseconds,
    pub destination: [u8; 6],
    pub source: [u8; 6],
    pub frame: Span,
}

// The buffer has a length, and is filled with one octet.
#[derive(Clone, Copy)]
pub struct ReportCall {
    pub reading: Milliseconds,
    pub requester: [u8; 6],
    pub kind: Kind,
    pub length: u16,
    pub fill: u8,
}

// A move or a network change; its requesters stand at a position.
#[derive(Clone, Copy)]
pub struct MoveCall {
    pub reading: Milliseconds,
    pub count: u8,
    pub list: usize,
}

#[derive(Clone, Copy)]
pub struct RsnaCall {
    pub event: RsnaEvent,
    pub rsn: Span,
}

// The elements stand at a position.
#[derive(Clone, Copy)]
pub struct WriterCall {
    pub length: u16,
    pub fill: u8,
    pub kind: Kind,
    pub dialog: u8,
    pub count: u8,
    pub elements: usize,
}

#[derive(Clone, Copy)]
pub struct ReaderCall {
    pub form: u8,
    pub destination: [u8; 6],
    pub frame: Span,
}

// How many places of the log were logged before acceptance, and a position in the log.
#[derive(Clone, Copy)]
pub struct ExplainCall {
    pub element: Span,
    pub count: u16,
    pub position: u16,
}

// The position of a record's fields; past the end of the input, that end.
fn fields(s: &[u8], at: usize) -> usize
    ensures { (result ≡ fields_of s.now at) × (result ≤ length s.now) }
{
    at.saturating_add(1).min(s.len())
}

#[tactic(auto, unfolding(crate::specs::Records::milliseconds_at, octets::specs::Fields::octets_at))]
fn milliseconds_at(s: &[u8], at: usize) -> Milliseconds
    ensures { result ≡ milliseconds_at s.now at }
{
    Milliseconds(u32::from_le_bytes(array_at(s, at)))
}

// An event's time fields: the time, TSF, UTC offset, event time error.
#[tactic(auto, unfolding(crate::specs::Records::times_at))]
fn times_at(s: &[u8], at: usize) -> Times
    requires { at ≤ length s.now + 4 }
    ensures { result ≡ times_at s.now at }
{
    Times {
        time: time_at(s, at),
        tsf: array_at(s, at + 9),
        offset: array_at(s, at + 17),
        error: array_at(s, at + 27),
    }
}

// A length and so many octets.
#[tactic(auto, unfolding(crate::specs::Records::span_at))]
fn span_at(s: &[u8], at: usize) -> Span
    requires { at ≤ length s.now + 55 }
    ensures { (result ≡ span_at s.now at) × (result.to ≤ at + 65537) }
{
    let from = at + 2;
    Span {
        from,
        to: from + (pair_at(s, at) as usize),
    }
}

// So many requesters at a position, an address and its form each: the first of as many as a record can have.
pub fn requesters_at(s: &[u8], count: u8, from: usize) -> ArrayVec<[u8; 7], 255>
    ensures { result.items ≡ take count (requesters_at s.now 255 from) }
{
    let first = from.min(s.len());
    let mut list = ArrayVec::new();
    for i in 0..count as usize {
        list.push(array_at(s, first + 7 * i));
    }
    list
}

// The reading that is the first field of a record.
pub fn reading_at(s: &[u8], at: usize) -> Milliseconds
    ensures { result ≡ milliseconds_at s.now (fields_of s.now at) }
{
    milliseconds_at(s, fields(s, at))
}

#[tactic(auto, unfolding(crate::specs::Records::setup_fields))]
pub fn setup_at(s: &[u8], at: usize) -> SetupCall
    ensures { result ≡ setup_fields s.now (fields_of s.now at) }
{
    let at = fields(s, at);
    let identity = span_at(s, at);
    SetupCall {
        identity,
        count: octet(s, identity.to),
        list: identity.to + 1,
    }
}

#[tactic(auto, unfolding(crate::specs::Records::transition_fields))]
pub fn transition_at(s: &[u8], at: usize) -> Transition
    ensures { result ≡ transition_fields s.now (fields_of s.now at) }
{
    let at = fields(s, at);
    Transition {
        times: times_at(s, at + 4),
        source: address_at(s, at + 36),
        target: address_at(s, at + 42),
        reason: octet(s, at + 48),
        result: pair_at(s, at + 49),
        signals: array_at(s, at + 51),
        departure: milliseconds_at(s, at + 55),
    }
}

#[tactic(auto, unfolding(crate::specs::Records::frame_fields))]
pub fn frame_call_at(s: &[u8], at: usize) -> FrameCall
    ensures { result ≡ frame_fields s.now (fields_of s.now at) }
{
    let at = fields(s, at);
    FrameCall {
        reading: milliseconds_at(s, at),
        destination: address_at(s, at + 4),
        source: address_at(s, at + 10),
        frame: span_at(s, at + 16),
    }
}

#[tactic(auto, unfolding(crate::specs::Records::report_fields))]
pub fn report_call_at(s: &[u8], at: usize) -> ReportCall
    ensures { result ≡ report_fields s.now (fields_of s.now at) }
{
    let at = fields(s, at);
    ReportCall {
        reading: milliseconds_at(s, at),
        requester: address_at(s, at + 4),
        kind: Kind::from(octet(s, at + 10)),
        length: pair_at(s, at + 11),
        fill: octet(s, at + 13),
    }
}

#[tactic(auto, unfolding(crate::specs::Records::move_fields))]
pub fn move_at(s: &[u8], at: usize) -> MoveCall
    ensures { result ≡ move_fields s.now (fields_of s.now at) }
{
    let at = fields(s, at);
    MoveCall {
        reading: milliseconds_at(s, at),
        count: octet(s, at + 4),
        list: at + 5,
    }
}

#[tactic(auto, unfolding(crate::specs::Records::rsna_fields))]
pub fn rsna_call_at(s: &[u8], at: usize) -> RsnaCall
    ensures { result ≡ rsna_fields s.now (fields_of s.now at) }
{
    let at = fields(s, at);
    RsnaCall {
        event: RsnaEvent {
            times: times_at(s, at + 4),
            target: address_at(s, at + 36),
            authentication: array_at(s, at + 42),
            method: array_at(s, at + 46),
            result: octet(s, at + 54),
        },
        rsn: span_at(s, at + 55),
    }
}

#[tactic(auto, unfolding(crate::specs::Records::peer_link_fields))]
pub fn peer_link_at(s: &[u8], at: usize) -> PeerLink
    ensures { result ≡ peer_link_fields s.now (fields_of s.now at) }
{
    let at = fields(s, at);
    PeerLink {
        times: times_at(s, at + 4),
        peer: address_at(s, at + 36),
        class: octet(s, at + 42),
        channel: octet(s, at + 43),
        power: octet(s, at + 44),
        connection: array_at(s, at + 45),
        status: octet(s, at + 48),
    }
}

#[tactic(auto, unfolding(crate::specs::Records::writer_fields))]
pub fn writer_call_at(s: &[u8], at: usize) -> WriterCall
    ensures { result ≡ writer_fields s.now (fields_of s.now at) }
{
    let at = fields(s, at);
    WriterCall {
        length: pair_at(s, at),
        fill: octet(s, at + 2),
        kind: Kind::from(octet(s, at + 3)),
        dialog: octet(s, at + 4),
        count: octet(s, at + 5),
        elements: at + 6,
    }
}

#[tactic(auto, unfolding(crate::specs::Records::reader_fields))]
pub fn reader_call_at(s: &[u8], at: usize) -> ReaderCall
    ensures { result ≡ reader_fields s.now (fields_of s.now at) }
{
    let at = fields(s, at);
    ReaderCall {
        form: octet(s, at),
        destination: address_at(s, at + 1),
        frame: span_at(s, at + 7),
    }
}

#[tactic(auto, unfolding(crate::specs::Records::explain_fields))]
pub fn explain_call_at(s: &[u8], at: usize) -> ExplainCall
    ensures { result ≡ explain_fields s.now (fields_of s.now at) }
{
    let at = fields(s, at);
    let element = span_at(s, at);
    ExplainCall {
        element,
        count: pair_at(s, element.to),
        position: pair_at(s, element.to + 2),
    }
}
