// Report frames: the listing that the program `report` prints, whole, in a text that has room for every
// one of them.
#![tactic(auto)]

ghost use Rattle.std.specs.Prelude.{◌≡◌, true, [], ◌+◌, ◌*◌, ◌≤◌, ◌<◌, length, get_or, Ok};
ghost use Rattle.octets.specs.Fields.{pair_at};
ghost use Rattle.texts.specs.Text.{Puts};
ghost use Rattle.events.specs.Times.{is_form};
ghost use Rattle.report_reader.specs.Decoders.{decoded};
ghost use Rattle.report_reader.specs.Reader.{element_read, step_read, read_elements};
ghost use Rattle.report_listing.specs.Listing.{time_field, date_text, clock_text, time_text, bare_text, published_text, times_text, colon_text, signals_text, transition_text, vendor_text, rsn_text, rsna_text, peer_link_text, event_text, unread_text, event_tail, tail_text, head_text, report_element_line, report_element_lines, frame_listing, input_listing, report_listing_most};
ghost use Rattle.report_listing.specs.Internal.{times_most, event_most, unread_most, head_most, tail_most, report_line_most, lines_most, step_line, step_most};

use events::rsna_events::RSN_LENGTH;
use events::{DRAFT, Times, is_form};
use octets::{Cause, Kind, address_at, numbers, octet, pair};
use report_reader::{
    Cursor, Element, PeerLinkReport, RsnaReport, Step, TransitionReport, peer_link_in, read_report,
    rsna_in, transition_in,
};
use texts::Text;

// What the longest listing has at most: 52 octets for the first line, and 14 for each octet that the
// elements take of a frame.
pub const LISTING: usize = 52 + 14 * (numbers::LONGEST_FRAME - 3);

// ---- an element

// A time field behind a text, `?` where it is all ones.
fn put_time_field(text: &mut Text<LISTING>, front: &[u8], digits: usize, ones: u16, n: u16)
    requires { digits ≤ 5 }
    ensures { Puts LISTING (length front.now + 5) (time_field front.now digits ones n) text.old text.new }
{
    if n == ones {
        text.put_two(front, b"?")
    } else {
        text.number(front, u64::from(n), digits)
    }
}

// One of one octet.
fn put_time_octet(text: &mut Text<LISTING>, front: &[u8], n: u8)
    ensures { Puts LISTING (length front.now + 5) (time_field front.now 2 255 n) text.old text.new }
{
    put_time_field(text, front, 2, 255, u16::from(n));
}

fn put_date(text: &mut Text<LISTING>, year: u16, month: u8, day: u8)
    ensures { Puts LISTING 23 (date_text year month day) text.old text.new }
{
    put_time_field(text, b" time ", 4, 65535, year);
    put_time_octet(text, b"-", month);
    put_time_octet(text, b"-", day);
}

fn put_clock(text: &mut Text<LISTING>, hour: u8, minute: u8, second: u8, ms: u16)
    ensures { Puts LISTING 24 (clock_text hour minute second ms) text.old text.new }
{
    put_time_octet(text, b" ", hour);
    put_time_octet(text, b":", minute);
    put_time_octet(text, b":", second);
    put_time_field(text, b".", 3, 65535, ms);
}

fn put_time(text: &mut Text<LISTING>, time: [u8; 9])
    ensures { Puts LISTING 47 (time_text time) text.old text.new }
{
    put_date(text, pair(time[7], time[8]), time[6], time[5]);
    put_clock(text, time[4], time[3], time[2], pair(time[0], time[1]));
}

// Octets behind a name, as they stand.
fn put_bare(text: &mut Text<LISTING>, name: &[u8], o: &[u8])
    ensures { Puts LISTING (length name.now + 2 * length o.now) (bare_text name.now o.now) text.old text.new }
{
    text.put(name);
    text.hexes(b"", o);
}

fn put_published(text: &mut Text<LISTING>, t: Times)
    ensures { Puts LISTING times_most (published_text t) text.old text.new }
{
    put_bare(text, b" tsf ", &t.tsf);
    put_bare(text, b" offset ", &t.offset);
    put_bare(text, b" error ", &t.error);
}

// The form goes beside the text, here and below: with a struct of both, each of these functions would have a
// clause more, that it leaves the form as it was.
fn put_times(text: &mut Text<LISTING>, form: u8, t: Times)
    ensures { Puts LISTING times_most (times_text form t) text.old text.new }
{
    if form == DRAFT {
        put_time(text, t.time)
    } else {
        put_published(text, t)
    }
}

// Octets behind a name, with colons between them.
fn put_colons(text: &mut Text<LISTING>, name: &[u8], o: &[u8])
    requires { 0 < length o.now }
    ensures { Puts LISTING (length name.now + 3 * length o.now) (colon_text name.now o.now) text.old text.new }
{
    text.hex(name, o[0]);
    text.hexes(b":", &o[1..]);
}

fn put_signals(text: &mut Text<LISTING>, signals: [u8; 4])
    ensures { Puts LISTING 64 (signals_text signals) text.old text.new }
{
    text.field(b" source-rcpi ", signals[0]);
    text.field(b" source-rsni ", signals[1]);
    text.field(b" target-rcpi ", signals[2]);
    text.field(b" target-rsni ", signals[3]);
}

fn put_transition(text: &mut Text<LISTING>, form: u8, e: TransitionReport)
    ensures { Puts LISTING event_most (transition_text form e) text.old text.new }
{
    put_times(text, form, e.times);
    put_colons(text, b" source ", &e.source);
    put_colons(text, b" target ", &e.target);
    text.field(b" transition ", e.took.0);
    text.field(b" reason ", e.reason);
    text.field(b" result ", e.result);
    put_signals(text, e.signals);
}

// The vendor of an EAP method, where its first octet says that there is one.
fn put_vendor(text: &mut Text<LISTING>, method: [u8; 8])
    ensures { Puts LISTING 42 (vendor_text method) text.old text.new }
{
    if method[0] != 254 {
        return;
    }
    put_colons(text, b" vendor ", &method[1..4]);
    put_colons(text, b" vendor-type ", &method[4..]);
}

// The RSN element, where one is there. Places and size are two fields of what C sees, and are cut here alone.
fn put_rsn(text: &mut Text<LISTING>, rsn: [u8; RSN_LENGTH], size: usize)
    ensures { Puts LISTING 49 (rsn_text rsn size) text.old text.new }
{
    if size == 0 {
        return;
    }
    let n = size.min(RSN_LENGTH);
    put_bare(text, b" rsn ", &rsn[..n]);
}

fn put_rsna(text: &mut Text<LISTING>, form: u8, e: RsnaReport)
    ensures { Puts LISTING event_most (rsna_text form e) text.old text.new }
{
    put_times(text, form, e.times);
    put_colons(text, b" target ", &e.target);
    put_colons(text, b" authentication ", &e.authentication);
    text.field(b" eap ", e.method[0]);
    put_vendor(text, e.method);
    text.field(b" result ", e.result);
    put_rsn(text, e.rsn, e.size);
}

// A number of three octets.
fn three(o: [u8; 3]) -> usize
    ensures { result ≡ pair_at o 0 + 65536 * get_or o 2 0 }
{
    u32::from_le_bytes([o[0], o[1], o[2], 0]) as usize
}

fn put_peer_link(text: &mut Text<LISTING>, form: u8, e: PeerLinkReport)
    ensures { Puts LISTING event_most (peer_link_text form e) text.old text.new }
{
    put_times(text, form, e.times);
    put_colons(text, b" peer ", &e.peer);
    text.field(b" class ", e.class);
    text.field(b" channel ", e.channel);
    text.field(b" power ", e.power);
    text.field(b" connection ", three(e.connection));
    text.field(b" peer-status ", e.status);
}

// The event of a type, from its octets. A type is the octet that was read, here and below.
fn put_event(text: &mut Text<LISTING>, form: u8, ty: u8, o: &[u8])
    ensures { Puts LISTING event_most (event_text form (decoded form ty o.now)) text.old text.new }
{
    match ty {
        0 => put_transition(text, form, transition_in(form, o)),
        1 => put_rsna(text, form, rsna_in(form, o)),
        2..=255 => put_peer_link(text, form, peer_link_in(form, o)),
    }
}

// The octets of other event types, kept unread.
fn put_unread(text: &mut Text<LISTING>, ty: u8, n: usize)
    ensures { Puts LISTING unread_most (unread_text ty n) text.old text.new }
{
    match ty {
        0..=2 => {}
        3..=255 => text.field(b" rest ", n),
    }
}

// What an event report has behind its status. An element and its octets stay apart, as the cursor gives them, and
// the kind is the frame's.
fn put_event_tail(text: &mut Text<LISTING>, form: u8, e: Element, o: &[u8])
    ensures { Puts LISTING (tail_most e.logged) (event_tail form (element_read form e o.now).event e) text.old text.new }
{
    if e.logged {
        put_event(text, form, e.ty, o)
    } else if e.status == numbers::SUCCESSFUL {
        put_unread(text, e.ty, e.length)
    }
}

fn put_tail(text: &mut Text<LISTING>, form: u8, kind: Kind, e: Element, o: &[u8])
    ensures { Puts LISTING (tail_most e.logged) (tail_text form kind (element_read form e o.now)) text.old text.new }
{
    match kind {
        Kind::Event => put_event_tail(text, form, e, o),
        Kind::Diagnostic => text.field(b" subs ", e.subs),
    }
}

fn put_head(text: &mut Text<LISTING>, kind: Kind, e: Element)
    ensures { Puts LISTING head_most (head_text kind e) text.old text.new }
{
    text.element_head(kind.report_id(), e.token, e.ty);
    text.field(b" status ", e.status);
}

// The line of an element, with the octets behind its status.
fn put_element(text: &mut Text<LISTING>, form: u8, kind: Kind, e: Element, o: &[u8])
    ensures { Puts LISTING (report_line_most e.logged) (report_element_line form kind (element_read form e o.now)) text.old text.new }
{
    put_head(text, kind, e);
    put_tail(text, form, kind, e, o);
    text.put(b"\n");
}

// ---- a frame

// The line of what stands at a cursor; elements of another ID have none.
fn put_step(text: &mut Text<LISTING>, form: u8, s: &[u8], kind: Kind, step: Step)
    requires { (step_read (Ok step)).found ≡ true → (step_read (Ok step)).rest + (step_read (Ok step)).element.length ≤ length s.now }
    ensures { Puts LISTING (step_most (step_read (Ok step))) (step_line form s.now kind (step_read (Ok step))) text.old text.new }
{
    match step.found {
        Some(f) => {
            let end = f.rest + f.element.length;
            put_element(text, form, kind, f.element, &s[f.rest..end]);
        }
        None => {}
    }
}

// The lines of all elements of a frame that is not refused. A loop: each step tells the next cursor.
fn put_elements(text: &mut Text<LISTING>, form: u8, s: &[u8], kind: Kind)
    requires { (is_form form ≡ true) × ((read_elements form s.now kind).refusal.number ≡ 0) }
    ensures { Puts LISTING (lines_most (length s.now)) (report_element_lines form kind (read_elements form s.now kind).elements) text.old text.new }
{
    let mut cursor = Cursor::first();
    while cursor.at < s.len() {
        let step = cursor.next(form, s, kind).unwrap();
        put_step(text, form, s, kind, step);
        cursor = step.next;
    }
}

// Reads a report frame of a form for a destination and lists it, into a text that is lent: one of so many octets costs
// a copy each time that it is handed on.
pub fn put_listing(text: &mut Text<LISTING>, form: u8, destination: [u8; 6], s: &[u8])
    ensures { Puts LISTING report_listing_most (frame_listing form destination s.now) text.old text.new }
{
    match read_report(form, destination, s) {
        Ok(report) => {
            let action = report.kind.report_action();
            text.frame(b"report ", action, report.dialog, report.count);
            put_elements(text, form, s, report.kind);
        }
        Err(refusal) => text.refusal(refusal),
    }
}

// The same, as a text of its own.
pub fn list_report(form: u8, destination: [u8; 6], s: &[u8]) -> Text<LISTING>
    ensures { result ≡ frame_listing form destination s.now }
{
    let mut text = Text::new();
    put_listing(&mut text, form, destination, s);
    text
}

// Lists the input of the program `report`: the form, six octets of destination, then the frame.
pub fn put_input(text: &mut Text<LISTING>, input: &[u8])
    ensures { Puts LISTING report_listing_most (input_listing input.now) text.old text.new }
{
    let form = octet(input, 0);
    if !is_form(form) {
        return text.refusal(Cause::BadRequesterList.at(0));
    }
    if input.len() < 7 {
        return text.refusal(Cause::BadFrameLength.at(0));
    }
    put_listing(text, form, address_at(input, 1), &input[7..]);
}

// The same, as a text of its own.
pub fn list_input(input: &[u8]) -> Text<LISTING>
    ensures { result ≡ input_listing input.now }
{
    let mut text = Text::new();
    put_input(&mut text, input);
    text
}
