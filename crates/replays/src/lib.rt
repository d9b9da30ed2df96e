// The records of a trace as calls: what each gives, the station after it, and the station after a whole
// trace. Nothing is printed here. The format of the records is that of traces. A call is of a station and of the
// record at a position of the trace, which stay three parameters: each function hands on those that it needs.
#![tactic(auto)]

ghost use Rattle.std.specs.Prelude.{◌≡◌, ◌≤◌, [], take};
ghost use Rattle.model.specs.Clocks.{elapsed_clock};
ghost use Rattle.model.specs.Model.{standard, report as model_report};
ghost use Rattle.model.specs.Stations.{step};
ghost use Rattle.explanations.specs.Explanations.{explanation_read};
ghost use Rattle.texts.specs.Text.{Puts};
ghost use Rattle.report_listing.specs.Listing.{frame_listing, report_listing_most};
ghost use Rattle.station.specs.Views.{view, view_outcome};
ghost use Rattle.replays.specs.Replay.{spanned, setup_at, clock_at, log_transition_at, frame_at, report_at, roam_at, change_at, log_rsna_at, log_peer_link_at, station_after, explained_at, listed_at, replayed, replay_trace, explained_line, explain_line};

use explanations::Explanation;
use octets::Refusal;
use report_listing::{LISTING, put_listing};
use requesters::Answer;
use station::{Outcome, Station};
use texts::Text;
use traces::{
    BUFFER, LINE, RecordKind, Span, explain_call_at, explanation_line, frame_call_at, move_at,
    peer_link_at, reader_call_at, reading_at, record_end, record_kind, report_call_at,
    requesters_at, rsna_call_at, setup_at, trace_refusal_line, transition_at,
};

// A trace has at most so many octets.
pub const LONGEST: usize = 262144;

// What a report call gives, and its lent buffer: the first length octets of buf.
#[derive(Clone, Copy)]
pub struct Reported {
    pub outcome: Outcome,
    pub buf: [u8; BUFFER],
    pub length: usize,
}

// How far the records of a trace reach, and the station after them. A place and no Result: the caller, which knows
// where the trace ends, compares the two.
#[derive(Clone, Copy)]
pub struct Replayed {
    pub reached: usize,
    pub station: Station,
}

// The octets of a span, as far as the input has them.
fn part(s: &[u8], span: Span) -> &[u8]
    ensures { result.now ≡ spanned s.now span }
{
    let to = span.to.min(s.len());
    let from = span.from.min(to);
    &s[from..to]
}

fn set_up(s: &[u8], at: usize) -> Outcome
    ensures { view_outcome result [] ≡ setup_at s.now at }
{
    let c = setup_at(s, at);
    let list = requesters_at(s, c.count, c.list);
    Station::setup(part(s, c.identity), list.as_slice())
}

fn tick(g: Station, s: &[u8], at: usize) -> Outcome
    ensures { view_outcome result [] ≡ step elapsed_clock standard (view g) (clock_at s.now at) }
{
    g.tick(reading_at(s, at))
}

// Two functions, this and log_peer_link: each event has its own type, reader, method of the station and case of
// the model's call.
fn log_transition(g: Station, s: &[u8], at: usize) -> Outcome
    ensures { view_outcome result [] ≡ step elapsed_clock standard (view g) (log_transition_at s.now at) }
{
    g.log_transition(reading_at(s, at), transition_at(s, at))
}

fn take_frame(g: Station, s: &[u8], at: usize) -> Outcome
    ensures { view_outcome result [] ≡ step elapsed_clock standard (view g) (frame_at s.now at) }
{
    let c = frame_call_at(s, at);
    g.take_frame(c.reading, c.destination, c.source, part(s, c.frame))
}

// The report call of the record at a position.
pub fn report_at(g: Station, s: &[u8], at: usize) -> Reported
    ensures outcome { view_outcome result.outcome (take result.length result.buf) ≡ step elapsed_clock standard (view g) (report_at s.now at) }
    ensures within { result.length ≤ BUFFER }
{
    let c = report_call_at(s, at);
    let length = (c.length as usize).min(BUFFER);
    let mut buf = [c.fill; BUFFER];
    let outcome = g.report(c.reading, c.requester, c.kind, &mut buf[..length]);
    Reported {
        outcome,
        buf,
        length,
    }
}

// Twins but for the station's method: over a closure, each call would say its contract again, to spare one line.
fn roam(g: Station, s: &[u8], at: usize) -> Outcome
    ensures { view_outcome result [] ≡ step elapsed_clock standard (view g) (roam_at s.now at) }
{
    let c = move_at(s, at);
    g.roam(c.reading, requesters_at(s, c.count, c.list).as_slice())
}

fn change_network(g: Station, s: &[u8], at: usize) -> Outcome
    ensures { view_outcome result [] ≡ step elapsed_clock standard (view g) (change_at s.now at) }
{
    let c = move_at(s, at);
    g.change_network(c.reading, requesters_at(s, c.count, c.list).as_slice())
}

fn log_rsna(g: Station, s: &[u8], at: usize) -> Outcome
    ensures { view_outcome result [] ≡ step elapsed_clock standard (view g) (log_rsna_at s.now at) }
{
    let c = rsna_call_at(s, at);
    g.log_rsna(reading_at(s, at), c.event, part(s, c.rsn))
}

fn log_peer_link(g: Station, s: &[u8], at: usize) -> Outcome
    ensures { view_outcome result [] ≡ step elapsed_clock standard (view g) (log_peer_link_at s.now at) }
{
    g.log_peer_link(reading_at(s, at), peer_link_at(s, at))
}

// A record that is no call on a station leaves it, with nothing for an answer.
fn unmoved(g: Station) -> Outcome
    ensures { result.station ≡ g }
{
    Outcome {
        station: g,
        answer: Answer::Nothing,
    }
}

// The outcome of the record at a position. A match, which the compiler holds to name every kind.
pub fn outcome_at(g: Station, s: &[u8], at: usize) -> Outcome
    ensures { view result.station ≡ station_after s.now at (view g) }
{
    match record_kind(s, at) {
        Some(RecordKind::Setup) => set_up(s, at),
        Some(RecordKind::Clock) => tick(g, s, at),
        Some(RecordKind::LogTransition) => log_transition(g, s, at),
        Some(RecordKind::TakeFrame) => take_frame(g, s, at),
        Some(RecordKind::Report) => report_at(g, s, at).outcome,
        Some(RecordKind::Roam) => roam(g, s, at),
        Some(RecordKind::ChangeNetwork) => change_network(g, s, at),
        Some(RecordKind::LogRsna) => log_rsna(g, s, at),
        Some(RecordKind::LogPeerLink) => log_peer_link(g, s, at),
        Some(RecordKind::WriteRequest) => unmoved(g),
        Some(RecordKind::ReadReport) => unmoved(g),
        Some(RecordKind::Explain) => unmoved(g),
        None => unmoved(g),
    }
}

// The explanation that the record at a position asks for, of the station's log as it stands.
pub fn explain_at(g: Station, s: &[u8], at: usize) -> Result<Explanation, Refusal>
    ensures { explanation_read result ≡ explained_at s.now at (view g) }
{
    let c = explain_call_at(s, at);
    g.explain(part(s, c.element), c.count as usize, c.position as usize)
}

// The listing of the report frame of the record at a position, into a text that is lent.
pub fn put_list(text: &mut Text<LISTING>, s: &[u8], at: usize)
    ensures { Puts LISTING report_listing_most (listed_at s.now at) text.old text.new }
{
    let c = reader_call_at(s, at);
    put_listing(text, c.form, c.destination, part(s, c.frame))
}

// The same, as a text of its own.
pub fn list_at(s: &[u8], at: usize) -> Text<LISTING>
    ensures { result ≡ listed_at s.now at }
{
    let mut text = Text::new();
    put_list(&mut text, s, at);
    text
}

// What a replay does at each record: its call, and what is shown of that.
pub trait Caller {
    // The call of the record at a position; the station after it.
    fn call(&self, g: Station, s: &[u8], at: usize) -> Station
        ensures { view result ≡ station_after s.now at (view g) };
}

// Nothing is shown.
#[derive(Clone, Copy)]
struct Unseen;

impl Caller for Unseen {
    fn call(&self, g: Station, s: &[u8], at: usize) -> Station {
        outcome_at(g, s, at).station
    }
}

// The records of a trace from the front, while they are whole. A loop: `successors` would give where they
// start, but not where the last one ends.
pub fn replay_by<C: Caller>(caller: &C, s: &[u8]) -> Replayed
    ensures { replayed result.reached (view result.station) ≡ replay_trace s.now }
{
    let nobody = Station::setup(&[], &[]);
    let mut station = nobody.station;
    let mut at: usize = 0;
    while let Some(end) = record_end(s, at) {
        station = caller.call(station, s, at);
        at = end;
    }
    Replayed {
        reached: at,
        station,
    }
}

// The same, with nothing shown.
pub fn replay(s: &[u8]) -> Replayed
    ensures { replayed result.reached (view result.station) ≡ replay_trace s.now }
{
    replay_by(&Unseen, s)
}

// The line of a trace that is refused, or else of the explanation that the record at the front of s asks
// for after the trace.
fn explained_line(s: &[u8], trace: &[u8]) -> Text<LINE>
    ensures { result ≡ explained_line s.now trace.now }
{
    let longest = Span {
        from: 0,
        to: LONGEST,
    };
    let r = replay(part(trace, longest));
    if r.reached < trace.len() {
        return trace_refusal_line(r.reached);
    }
    explanation_line(explain_at(r.station, s, 0))
}

// The line that explain prints of an input, a record 18 (hexadecimal 12) and a trace behind it.
pub fn explain_line(s: &[u8]) -> Text<LINE>
    ensures { result ≡ explain_line s.now }
{
    let Some(end) = record_end(s, 0) else {
        return trace_refusal_line(0);
    };
    let behind = Span {
        from: end,
        to: s.len(),
    };
    explained_line(s, part(s, behind))
}
