// Report frames, read (document 01, causes 11, 1, 2, then 4, 5, 17, 14 and 7; before them 15, document 02
// (g): a reader is told the form of the time fields): a frame is validated whole, a cursor hands out its
// elements, and a decoder for each kind reads an event's octets. Functions take the frame and a position in it,
// not its parts: refusals name positions.
#![tactic(auto)]

mod decoders;

ghost use Rattle.std.specs.Prelude.{◌≡◌, true, List, ℕ, ◌+◌, ◌^◌, ◌≤◌, ◌<◌, length, get_or, Ok};
ghost use Rattle.octets.specs.Refusals.{no_refusal};
ghost use Rattle.report_reader.specs.Reader.{Step as ReaderStep, is_rsna_length, is_event_length, good_time_at, typed_step, event_step, diagnostic_step, own_report_step, step_at, step_read, cursor_step, Reading, gathered, read_elements, report_of, report_read, read_report};
ghost use Rattle.report_reader.specs.Internal.{verdict_of, verdict_given, verdict_read, walk_of, walk_kept, walk_read, found_element, Fits, step_of, timed_verdict, held, Held, Outline, EventOutline};

pub use decoders::{
    PeerLinkReport, RsnaReport, TransitionReport, peer_link_in, rsna_in, transition_in,
};
use events::peer_links::PEER_LINK_LENGTH;
use events::rsna_events::{METHOD_OFFSET, RSN_LENGTH, rsna_length};
use events::transitions::TRANSITION_LENGTH;
use events::{DRAFT, DRAFT_LENGTH, is_form, time_length};
use octets::{
    Cause, Kind, Refusal, check_head, frame_kind, good_time, is_group, numbers, octet, piece_end,
    size, time_at,
};
use subelements::walk_edges;

// What a report body has in front of the time fields and the body of an event: token, type, status.
const EVENT_HEAD: usize = 3;

// The fields of a report element: how many octets stand behind its status, how many subelements
// they are (in a diagnostic), and whether they are an event, which the decoder of its type reads: a flag, since
// no field here belongs to an event alone.
#[derive(Clone, Copy)]
pub struct Element {
    pub token: u8,
    pub ty: u8,
    pub status: u8,
    pub length: usize,
    pub subs: usize,
    pub logged: bool,
}

// A position in a frame, where an element starts.
#[derive(Clone, Copy)]
pub struct Cursor {
    pub at: usize,
}

// An element of the frame's own ID, and the position of what stands behind its status.
#[derive(Clone, Copy)]
pub struct Found {
    pub element: Element,
    pub rest: usize,
}

// What stands at a cursor: such an element, or none: one of another ID. Next is behind it.
#[derive(Clone, Copy)]
pub struct Step {
    pub found: Option<Found>,
    pub next: Cursor,
}

// What the validation of a frame sees of a step: an element of another ID, passed over; one with no event,
// and how many subelements it has; or one with an event. First of each is the position behind it.
#[derive(Clone, Copy)]
enum Verdict {
    Skipped(usize),
    Plain(usize, usize),
    Logged(usize),
}

// How far a frame is validated: the next position and the number of elements, which are not held.
#[derive(Clone, Copy)]
struct Walk {
    pub at: usize,
    pub count: usize,
}

// A frame: what it reports, its dialog token and the number of its elements.
#[derive(Clone, Copy)]
pub struct Report {
    pub kind: Kind,
    pub dialog: u8,
    pub count: usize,
}

// ---- the verdict on one element. Its outline and what it holds are two steps: as one function it would not be
// inlined into the loop over a frame and into the cursor's step. Form, octets and kind are no struct: with one, a
// report of 64 events took 31,798 instructions for 26,750. The end goes beside the length: computed from it, it took
// 31,281. Position, length and end are no struct: three functions ask for its fact, and one would have to make it.

// Has an RSNA event, by the first octet of its EAP method, a body of n octets in a form?
fn is_rsna_length(form: u8, first: u8, n: usize) -> bool
    ensures { result ≡ is_rsna_length form first n }
{
    let bare = EVENT_HEAD + time_length(form) + rsna_length(first);
    if n == bare {
        return true;
    }
    n == bare + RSN_LENGTH
}

// Has an event of a type a body of n octets in a form? A type is a number here and below, since a report may
// have any octet there.
#[tactic(auto, using(laws::proofs::Choice::choices), unfolding(crate::specs::Reader::is_event_length))]
fn is_event_length(form: u8, s: &[u8], at: usize, n: usize, ty: u8) -> bool
    requires { at + 2 + n ≤ length s.now }
    ensures { result ≡ is_event_length form s.now at n ty }
{
    let time = time_length(form);
    match ty {
        0 => n == EVENT_HEAD + time + TRANSITION_LENGTH,
        1 => is_rsna_length(form, octet(s, at + 5 + time + METHOD_OFFSET), n),
        2..=255 => n == EVENT_HEAD + time + PEER_LINK_LENGTH,
    }
}

// A Successful report of an event type with a table, not of length 3.
fn outline_typed(form: u8, s: &[u8], at: usize, n: usize, end: usize) -> Result<Verdict, Refusal>
    requires { (n ≡ 3 → ⊥) × (3 ≤ n) × (end ≡ at + 2 + n) × (end ≤ length s.now) }
    ensures { EventOutline form s.now at (verdict_read result) (typed_step form s.now at n) }
{
    if !is_event_length(form, s, at, n, s[at + 3]) {
        return Err(Cause::BadReportBody.at(at));
    }
    Ok(Verdict::Logged(end))
}

// An event report; one of length 3 has nothing more, whatever its status and type.
#[tactic(auto, using(laws::proofs::Choice::choices, crate::proofs::Laws::outlines), unfolding(crate::specs::Reader::event_step))]
fn outline_event(form: u8, s: &[u8], at: usize, n: usize, end: usize) -> Result<Verdict, Refusal>
    requires { (3 ≤ n) × (end ≡ at + 2 + n) × (end ≤ length s.now) }
    ensures { EventOutline form s.now at (verdict_read result) (event_step form s.now at n) }
{
    if n == 3 {
        return Ok(Verdict::Plain(end, 0));
    }
    if s[at + 4] != numbers::SUCCESSFUL {
        return Err(Cause::BadReportBody.at(at));
    }
    let ty = s[at + 3];
    match ty {
        0..=2 => outline_typed(form, s, at, n, end),
        3..=255 => Ok(Verdict::Plain(end, 0)),
    }
}

// An element of the frame's own ID, with n octets of body up to its end.
#[tactic(auto, using(laws::proofs::Choice::choices), unfolding(crate::specs::Reader::own_report_step))]
fn outline_own(
    form: u8,
    s: &[u8],
    kind: Kind,
    at: usize,
    n: usize,
    end: usize,
) -> Result<Verdict, Refusal>
    requires { (end ≡ at + 2 + n) × (end ≤ length s.now) }
    ensures { Outline form s.now kind at (verdict_read result) (own_report_step form s.now kind at n) }
{
    if n < 3 {
        return Err(Cause::ShortElement.at(at));
    }
    if numbers::CANCELLED < s[at + 4] {
        return Err(Cause::BadReportBody.at(at));
    }
    match kind {
        Kind::Event => outline_event(form, s, at, n, end),
        Kind::Diagnostic => Ok(Verdict::Plain(end, 0)),
    }
}

// What stands at a position; an event's time and a diagnostic's subelements are not looked at yet.
#[tactic(auto, using(laws::proofs::Choice::choices), unfolding(crate::specs::Reader::step_at))]
fn outline_at(form: u8, s: &[u8], kind: Kind, at: usize) -> Result<Verdict, Refusal>
    ensures { Outline form s.now kind at (verdict_read result) (step_at form s.now kind at) }
{
    let Some(end) = piece_end(s, at, s.len()) else {
        return Err(Cause::ElementPastEnd.at(at));
    };
    if octet(s, at) != kind.report_id() {
        return Ok(Verdict::Skipped(end));
    }
    outline_own(form, s, kind, at, size(s, at + 1), end)
}

// ---- what the element holds

// Is the draft's time good? It is read of a part of the frame, whose length is then a constant.
#[tactic(auto, using(laws::proofs::Choice::choices, crate::proofs::Laws::time_part), unfolding(crate::specs::Reader::good_time_at))]
fn good_time_at(form: u8, s: &[u8], at: usize) -> bool
    requires { at + 9 ≤ length s.now }
    ensures { result ≡ good_time_at form s.now at }
{
    if form == DRAFT {
        return good_time(time_at(&s[at..at + DRAFT_LENGTH], 0));
    }
    true
}

// An event's time.
#[tactic(auto, using(laws::proofs::Choice::choices), unfolding(crate::specs::Internal::timed_verdict, crate::specs::Internal::verdict_of))]
fn validate_time(form: u8, s: &[u8], at: usize, v: Verdict) -> Result<Verdict, Refusal>
    requires { (verdict_given v).logged ≡ true → at + 14 ≤ length s.now }
    ensures { verdict_read result ≡ timed_verdict form s.now at (verdict_given v) }
{
    match v {
        Verdict::Skipped(_) => Ok(v),
        Verdict::Plain(_, _) => Ok(v),
        Verdict::Logged(_) => {
            if !good_time_at(form, s, at + 5) {
                return Err(Cause::BadTime.at(at));
            }
            Ok(v)
        }
    }
}

#[tactic(auto, using(laws::proofs::Choice::choices, octets::proofs::RefusalLaws::some_number, crate::proofs::Laws::told_plain), unfolding(crate::specs::Reader::diagnostic_step, crate::specs::Reader::walked_step, crate::specs::Internal::verdict_of))]
fn validate_diagnostic(s: &[u8], at: usize, end: usize) -> Result<Verdict, Refusal>
    requires { (at + 5 ≤ end) × (end ≤ length s.now) }
    ensures { (n : ℕ) → end ≡ at + 2 + n → verdict_read result ≡ verdict_of (diagnostic_step s.now at n) }
{
    let w = walk_edges(s, at + 5, end)?;
    Ok(Verdict::Plain(end, w.count))
}

// One of the frame's own ID.
#[tactic(auto, using(laws::proofs::Choice::choices), unfolding(crate::specs::Internal::held))]
fn validate_own(
    form: u8,
    s: &[u8],
    kind: Kind,
    at: usize,
    end: usize,
    v: Verdict,
) -> Result<Verdict, Refusal>
    requires { Held s.now at (verdict_given v) × ((verdict_given v).found ≡ true) × (end ≡ (verdict_given v).next) }
    ensures { verdict_read result ≡ held form s.now kind at (verdict_given v) }
{
    match kind {
        Kind::Event => validate_time(form, s, at, v),
        Kind::Diagnostic => validate_diagnostic(s, at, end),
    }
}

// The verdict, by the element's outline: what is passed over stays as it is.
#[tactic(auto, using(laws::proofs::Choice::choices), unfolding(crate::specs::Internal::held))]
fn validate_held(form: u8, s: &[u8], kind: Kind, at: usize, v: Verdict) -> Result<Verdict, Refusal>
    requires { Held s.now at (verdict_given v) }
    ensures { verdict_read result ≡ held form s.now kind at (verdict_given v) }
{
    match v {
        Verdict::Skipped(_) => Ok(v),
        Verdict::Plain(end, _) | Verdict::Logged(end) => validate_own(form, s, kind, at, end, v),
    }
}

// ---- its step, by the verdict

// The fields of an element that was found.
#[tactic(auto, using(laws::proofs::Choice::choices), unfolding(crate::specs::Internal::found_element))]
fn element_at(s: &[u8], at: usize, end: usize, subs: usize, logged: bool) -> Found
    requires { (at + 5 ≤ end) × (end ≤ length s.now) }
    ensures { result ≡ record { element = found_element s.now at (record { refusal = no_refusal; found = true; logged = logged; subs = subs; next = end }); rest = at + 5 } }
{
    Found {
        element: Element {
            token: s[at + 2],
            ty: s[at + 3],
            status: s[at + 4],
            length: end - (at + 5),
            subs,
            logged,
        },
        rest: at + 5,
    }
}

#[tactic(auto, using(laws::proofs::Choice::choices), unfolding(crate::specs::Internal::step_of, crate::specs::Internal::found_element))]
fn step_of(s: &[u8], at: usize, v: Verdict) -> Step
    requires { (verdict_given v).found ≡ true → Fits s.now at (verdict_given v) }
    ensures { step_read (Ok result) ≡ step_of s.now at (verdict_given v) }
{
    match v {
        Verdict::Skipped(next) => Step {
            found: None,
            next: Cursor { at: next },
        },
        Verdict::Plain(next, subs) => Step {
            found: Some(element_at(s, at, next, subs, false)),
            next: Cursor { at: next },
        },
        Verdict::Logged(next) => Step {
            found: Some(element_at(s, at, next, 0, true)),
            next: Cursor { at: next },
        },
    }
}

impl Cursor {
    // The first element's.
    pub fn first() -> Cursor
        ensures { result.at ≡ 3 }
    {
        Cursor {
            at: numbers::SHORTEST_FRAME,
        }
    }

    // What stands at the cursor, in a report frame of a form and a kind. Past the frame's end that is
    // refusal 4.
    #[tactic(auto, using(laws::proofs::Choice::choices), unfolding(crate::specs::Reader::cursor_step))]
    pub fn next(self, form: u8, s: &[u8], kind: Kind) -> Result<Step, Refusal>
        ensures { step_read result ≡ cursor_step form s.now kind self.at }
    {
        if !is_form(form) {
            return Err(Cause::BadRequesterList.at(0));
        }
        let at = self.at;
        let outline = outline_at(form, s, kind, at)?;
        let v = validate_held(form, s, kind, at, outline)?;
        Ok(step_of(s, at, v))
    }
}

// ---- a frame

// Behind one more element of the frame's own ID.
fn counted(w: Walk, next: usize) -> Walk
    requires { w.count + 1 < 2 ^ 64 }
    ensures { result ≡ record { at = next; count = w.count + 1 } }
{
    Walk {
        at: next,
        count: w.count + 1,
    }
}

// Behind what stands at a position.
#[tactic(auto, using(laws::proofs::Choice::choices), unfolding(crate::specs::Reader::gathered, crate::specs::Internal::verdict_of))]
fn advance(w: Walk, v: Verdict) -> Walk
    requires { w.count + 1 < 2 ^ 64 }
    ensures { (form : ℕ) (s : List ℕ) (x : Reading) (t : ReaderStep) → walk_kept w ≡ walk_of x → verdict_given v ≡ verdict_of t → walk_kept result ≡ walk_of (gathered form s x t) }
{
    match v {
        Verdict::Skipped(next) => Walk {
            at: next,
            count: w.count,
        },
        Verdict::Plain(next, _) | Verdict::Logged(next) => counted(w, next),
    }
}

// All elements from the front; the first refusal stops. A loop: each length tells where the next one starts.
fn validate(form: u8, s: &[u8], kind: Kind) -> Result<Walk, Refusal>
    ensures { walk_read result ≡ walk_of (read_elements form s.now kind) }
{
    let mut w = Walk {
        at: numbers::SHORTEST_FRAME,
        count: 0,
    };
    while w.at < s.len() {
        let outline = outline_at(form, s, kind, w.at)?;
        let v = validate_held(form, s, kind, w.at, outline)?;
        w = advance(w, v);
    }
    Ok(w)
}

// A frame of a kind, by its elements.
#[tactic(auto, using(laws::proofs::Choice::choices, octets::proofs::RefusalLaws::some_number), unfolding(crate::specs::Reader::report_of))]
fn validated(form: u8, s: &[u8], kind: Kind) -> Result<Report, Refusal>
    ensures { report_read result ≡ report_of kind (get_or s.now 2 0) (read_elements form s.now kind) }
{
    let w = validate(form, s, kind)?;
    Ok(Report {
        kind,
        dialog: octet(s, 2),
        count: w.count,
    })
}

// Validates a whole frame, given its form and its destination.
#[tactic(auto, using(laws::proofs::Choice::choices, octets::proofs::RefusalLaws::some_number), unfolding(crate::specs::Reader::read_report))]
pub fn read_report(form: u8, destination: [u8; 6], s: &[u8]) -> Result<Report, Refusal>
    ensures { report_read result ≡ read_report form destination s.now }
{
    if !is_form(form) {
        return Err(Cause::BadRequesterList.at(0));
    }
    if is_group(destination) {
        return Err(Cause::GroupDestination.at(0));
    }
    let kind = frame_kind(s, Kind::Diagnostic.report_action());
    // No map_err and `?`, as in requests::read_request.
    if let Err(cause) = check_head(s, kind.report_action()) {
        return Err(cause.at(0));
    }
    validated(form, s, kind)
}
