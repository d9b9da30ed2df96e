// The fields of an event, from the octets behind a report's status: its time fields in a form (0 draft,
// any other: published), and the event's body. One decoder for each kind, total: octets past the end are 0.
#![tactic(auto, using(laws::proofs::Choice::choices, crate::proofs::DecoderLaws::firsts), unfolding(octets::specs::Fields::octets_at))]

ghost use Rattle.std.specs.Prelude.{◌≡◌, [], ◌+◌, ◌≤◌, ◌<◌, length, drop};
ghost use Rattle.octets.specs.Fields.{octets_at};
ghost use Rattle.octets.specs.Times.{time_at};
ghost use Rattle.events.specs.Times.{draft_length, published_length};
ghost use Rattle.events.specs.RsnaEvents.{rsn_length, rsn_element_of};
ghost use Rattle.report_reader.specs.Decoders.{draft_times, published_times, body_in, times_in, transition_in, rsna_in, peer_link_in};

use events::peer_links::PEER_LINK_LENGTH;
use events::rsna_events::{METHOD_OFFSET, RSN_LENGTH, rsna_length};
use events::transitions::TRANSITION_LENGTH;
use events::{
    DRAFT, DRAFT_LENGTH, PUBLISHED_LENGTH, Times, peer_links, rsna_events, time_length, transitions,
};
use octets::{copy, octet, put};
use units::TimeUnits;

// Three structs beside events' own of each kind: C sees each by a name of its own, with times in front.

// A reported transition; the signals are source RCPI, source RSNI, target RCPI and target RSNI. Of an
// event's time fields those that the form does not carry are 0.
#[repr(C)]
#[derive(Clone, Copy)]
pub struct TransitionReport {
    pub times: Times,
    pub source: [u8; 6],
    pub target: [u8; 6],
    pub took: TimeUnits,
    pub reason: u8,
    pub result: u16,
    pub signals: [u8; 4],
}

// A reported RSNA event; the EAP method is 0 past its length. The RSN element stands in its places, and
// size says how many octets it has: none where it is absent.
#[repr(C)]
#[derive(Clone, Copy)]
pub struct RsnaReport {
    pub times: Times,
    pub target: [u8; 6],
    pub authentication: [u8; 4],
    pub method: [u8; 8],
    pub result: u8,
    pub rsn: [u8; RSN_LENGTH],
    pub size: usize,
}

// A reported peer-to-peer link event.
#[repr(C)]
#[derive(Clone, Copy)]
pub struct PeerLinkReport {
    pub times: Times,
    pub peer: [u8; 6],
    pub class: u8,
    pub channel: u8,
    pub power: u8,
    pub connection: [u8; 3],
    pub status: u8,
}

// The most octets that an RSNA event has up to its RSN element.
const RSNA_FRONT: usize = METHOD_OFFSET + 9;

// What stands behind the first n octets.
fn behind(o: &[u8], n: usize) -> &[u8]
    ensures { result.now ≡ drop n o.now }
{
    let from = n.min(o.len());
    &o[from..]
}

// The event's body, behind its time fields.
fn body_in(form: u8, o: &[u8]) -> &[u8]
    ensures { result.now ≡ body_in form o.now }
{
    behind(o, time_length(form))
}

// A slice that is shorter than an array of zeros, with zeros behind it.
fn pad(o: &[u8], blank: &mut [u8])
    requires { blank.old ≡ octets_at [] 0 (length blank.old) }
    ensures { length o.now < length blank.old → blank.new ≡ octets_at o.now 0 (length blank.old) }
{
    if blank.len() <= o.len() {
        return;
    }
    put(blank, 0, o);
}

// As many octets as the array has.
fn whole_of<'a>(o: &'a [u8], padded: &'a [u8]) -> &'a [u8]
    requires { length o.now < length padded.now → padded.now ≡ octets_at o.now 0 (length padded.now) }
    ensures { result.now ≡ octets_at o.now 0 (length padded.now) }
{
    if o.len() < padded.len() {
        return padded;
    }
    &o[..padded.len()]
}

// The octets at a position, which are all there. No array_at and time_at, here and in rsn_places: with them a report
// in the published form takes 15,399 instructions for 13,421.
fn copy_at(o: &[u8], at: usize, out: &mut [u8])
    requires { at + length out.old ≤ length o.now }
    ensures { out.new ≡ octets_at o.now at (length out.old) }
{
    copy(&o[at..at + out.len()], out);
}

// The draft's time; no published field is carried.
fn draft_times(o: &[u8]) -> Times
    requires { draft_length ≤ length o.now }
    ensures { result ≡ draft_times (time_at o.now 0) }
{
    let mut time = [0u8; DRAFT_LENGTH];
    copy_at(o, 0, &mut time);
    Times {
        time,
        tsf: [0; 8],
        offset: [0; 10],
        error: [0; 5],
    }
}

// The published fields; the draft's time is not carried.
fn published_times(o: &[u8]) -> Times
    requires { published_length ≤ length o.now }
    ensures { result ≡ published_times (octets_at o.now 0 8) (octets_at o.now 8 10) (octets_at o.now 18 5) }
{
    let mut tsf = [0u8; 8];
    let mut offset = [0u8; 10];
    let mut error = [0u8; 5];
    copy_at(o, 0, &mut tsf);
    copy_at(o, 8, &mut offset);
    copy_at(o, 18, &mut error);
    Times {
        time: [0; DRAFT_LENGTH],
        tsf,
        offset,
        error,
    }
}

// The time fields in a form. The end is tested before all of them: the length of what they are read of is
// a constant, here and for the body of each kind.
#[tactic(auto, using(laws::proofs::Choice::choices, crate::proofs::DecoderLaws::firsts), unfolding(octets::specs::Fields::octets_at, crate::specs::Decoders::times_in))]
fn times_in(form: u8, o: &[u8]) -> Times
    ensures { result ≡ times_in form o.now }
{
    if form == DRAFT {
        let mut padded = [0u8; DRAFT_LENGTH];
        pad(o, &mut padded);
        return draft_times(whole_of(o, &padded));
    }
    let mut padded = [0u8; PUBLISHED_LENGTH];
    pad(o, &mut padded);
    published_times(whole_of(o, &padded))
}

// As the other two below: what they share is in functions already, what is left is each one's own fields.
pub fn transition_in(form: u8, o: &[u8]) -> TransitionReport
    ensures { result ≡ transition_in form o.now }
{
    let rest = body_in(form, o);
    let mut padded = [0u8; TRANSITION_LENGTH];
    pad(rest, &mut padded);
    let body = whole_of(rest, &padded);
    TransitionReport {
        times: times_in(form, o),
        source: transitions::source_of(body),
        target: transitions::target_of(body),
        took: transitions::took_of(body),
        reason: transitions::reason_of(body),
        result: transitions::result_of(body),
        signals: transitions::signals_of(body),
    }
}

// The RSN element of a body.
fn rsn_of(body: &[u8]) -> &[u8]
    ensures { result.now ≡ rsn_element_of body.now }
{
    let first = octet(body, METHOD_OFFSET);
    behind(body, rsna_length(first))
}

// In its places, 0 past its end.
fn rsn_places(element: &[u8]) -> [u8; RSN_LENGTH]
    ensures { result ≡ octets_at element.now 0 rsn_length }
{
    let mut padded = [0u8; RSN_LENGTH];
    pad(element, &mut padded);
    let mut rsn = [0u8; RSN_LENGTH];
    copy_at(whole_of(element, &padded), 0, &mut rsn);
    rsn
}

pub fn rsna_in(form: u8, o: &[u8]) -> RsnaReport
    ensures { result ≡ rsna_in form o.now }
{
    let body = body_in(form, o);
    let mut front = [0u8; RSNA_FRONT];
    pad(body, &mut front);
    let fields = whole_of(body, &front);
    let element = rsn_of(body);
    RsnaReport {
        times: times_in(form, o),
        target: rsna_events::target_of(fields),
        authentication: rsna_events::authentication_of(fields),
        method: rsna_events::method_of(fields),
        result: rsna_events::result_of(fields),
        rsn: rsn_places(element),
        size: element.len(),
    }
}

pub fn peer_link_in(form: u8, o: &[u8]) -> PeerLinkReport
    ensures { result ≡ peer_link_in form o.now }
{
    let rest = body_in(form, o);
    let mut padded = [0u8; PEER_LINK_LENGTH];
    pad(rest, &mut padded);
    let body = whole_of(rest, &padded);
    PeerLinkReport {
        times: times_in(form, o),
        peer: peer_links::peer_of(body),
        class: peer_links::class_of(body),
        channel: peer_links::channel_of(body),
        power: peer_links::power_of(body),
        connection: peer_links::connection_of(body),
        status: peer_links::status_of(body),
    }
}
