// Request frames (document 01, "The frame program"): the listing, whole, in a text that has room for
// every one of them.
#![tactic(auto)]

ghost use Rattle.std.specs.Prelude.{◌≡◌, [], ◌*◌, length};
ghost use Rattle.texts.specs.Text.{Puts};
ghost use Rattle.request_listing.specs.Listing.{limit_field, request_element_line, request_element_lines, request_listing, element_most, request_listing_most};
ghost use Rattle.requests.specs.Elements.{element_capacity};
ghost use Rattle.requests.specs.Requests.{request_read, read_request};

use octets::{Kind, Refusal};
use requests::{ELEMENT_CAPACITY, Element, Request, read_request};
use texts::Text;

// What the longest listing has at most: 51 octets for the first line, 56 for each element.
pub const LISTING: usize = 51 + 56 * ELEMENT_CAPACITY;

fn put_limit(text: &mut Text<LISTING>, kind: Kind, e: Element)
    ensures { Puts LISTING 14 (limit_field kind e) text.old text.new }
{
    match kind {
        Kind::Event => text.field(b" limit ", e.limit),
        Kind::Diagnostic => text.field(b" timeout ", e.timeout),
    }
}

// The line of an element; the kind is the frame's, and stays beside it.
fn put_line(text: &mut Text<LISTING>, kind: Kind, e: Element)
    ensures { Puts LISTING element_most (request_element_line kind e) text.old text.new }
{
    text.element_head(kind.request_id(), e.token, e.ty);
    put_limit(text, kind, e);
    text.field(b" subs ", e.subs);
    text.put(b"\n");
}

// The lines of elements.
fn put_lines(text: &mut Text<LISTING>, kind: Kind, es: &[Element])
    ensures { Puts LISTING (element_most * length es.now) (request_element_lines kind es.now) text.old text.new }
{
    for e in es {
        put_line(text, kind, *e);
    }
}

// Lists what was read: a request, or why it is refused.
fn put_listing(text: &mut Text<LISTING>, read: Result<Request, Refusal>)
    ensures { Puts LISTING request_listing_most (request_listing (request_read read)) text.old text.new }
{
    match read {
        Ok(q) => {
            text.frame(b"frame ", q.kind.request_action(), q.dialog, q.count);
            put_lines(text, q.kind, &q.elements[..q.count.min(ELEMENT_CAPACITY)]);
        }
        Err(refusal) => text.refusal(refusal),
    }
}

// Reads a frame and lists it.
pub fn list_frame(frame: &[u8]) -> Text<LISTING>
    ensures { result ≡ request_listing (read_request element_capacity frame.now) }
{
    let mut text = Text::new();
    put_listing(&mut text, read_request(frame));
    text
}
