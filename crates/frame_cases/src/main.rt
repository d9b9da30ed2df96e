// Example frames, one for each of document 01's causes 1 to 10 at least, and accepted ones of both
// kinds. Each is listed; stdout has what document 01 says of them, worked out by hand.
#![tactic(auto)]

use request_listing::list_frame;
use stdio::print;

fn show(rt: &HostRuntime, frame: &[u8]) {
    print(rt, list_frame(frame));
}

// Refused by the frame's length and header.
fn headers(rt: &HostRuntime) {
    // 1: no octet; two; 2,305
    show(rt, b"");
    show(rt, b"\x0a\x00");
    let long = [10u8; 2305];
    show(rt, &long);
    // 2: category 11; action 1
    show(rt, b"\x0b\x00\x07");
    show(rt, b"\x0a\x01\x07");
    // 3: dialog token 0
    show(rt, b"\x0a\x00\x00");
}

// Refused by an element.
fn elements(rt: &HostRuntime) {
    // 4: a header of one octet; a body of three octets for four; one of another ID, behind a whole one
    show(rt, b"\x0a\x00\x07\x4e");
    show(rt, b"\x0a\x00\x07\x4e\x04\x05\x00\x04");
    show(rt, b"\x0a\x00\x07\x4e\x03\x05\x01\x04\xdd\x02\x00");
    // 5: an event's body of two octets; a diagnostic's of three
    show(rt, b"\x0a\x00\x07\x4e\x02\x05\x00");
    show(rt, b"\x0a\x02\x07\x50\x03\x01\x01\x02");
    // 6: event token 0; a diagnostic token repeated
    show(rt, b"\x0a\x00\x07\x4e\x06\x00\x00\x04\x03\x01\x01");
    show(
        rt,
        b"\x0a\x02\x07\x50\x04\x00\x01\x02\x00\x50\x04\x00\x02\x02\x00",
    );
    // 9: nine elements of five octets
    show(
        rt,
        b"\x0a\x00\x07\x4e\x03\x01\x01\x00\x4e\x03\x02\x01\x00\x4e\x03\x03\x01\x00\x4e\x03\x04\x01\x00\x4e\x03\x05\x01\x00\x4e\x03\x06\x01\x00\x4e\x03\x07\x01\x00\x4e\x03\x08\x01\x00\x4e\x03\x09\x01\x00",
    );
    // 10: no element; none of the frame's own ID
    show(rt, b"\x0a\x02\x07");
    show(rt, b"\x0a\x02\x07\x4e\x00");
}

// Refused by a subelement.
fn subelements(rt: &HostRuntime) {
    // 7: a body that passes the end; a match value of two octets; a diagnostic's edge
    show(rt, b"\x0a\x00\x07\x4e\x06\x05\x00\x04\x03\x02\x01");
    show(rt, b"\x0a\x00\x07\x4e\x07\x05\x00\x04\x03\x02\x01\x01");
    show(rt, b"\x0a\x02\x07\x50\x06\x00\x01\x02\x00\xff\x01");
    // 8: a second match value
    show(
        rt,
        b"\x0a\x00\x07\x4e\x09\x05\x00\x04\x03\x01\x01\x03\x01\x02",
    );
}

fn accepted(rt: &HostRuntime) {
    // an event without elements
    show(rt, b"\x0a\x00\x07");
    // a match value and two subelements that are passed over; an element that is; a type whose body is not read
    show(
        rt,
        b"\x0a\x00\xff\x4e\x0b\x05\x00\x04\x03\x01\x03\xff\x00\x63\x01\x2a\xdd\x00\x4e\x05\x06\x07\xff\x01\x02",
    );
    // diagnostics: token 0, and two subelements of any length
    show(
        rt,
        b"\x0a\x02\x01\x50\x04\x00\x01\x02\x00\x50\x09\x01\xff\xff\xff\xdd\x00\x00\x01\x09",
    );
    // eight elements
    show(
        rt,
        b"\x0a\x02\x02\x50\x04\x01\x02\x00\x01\x50\x04\x02\x02\x00\x01\x50\x04\x03\x02\x00\x01\x50\x04\x04\x02\x00\x01\x50\x04\x05\x02\x00\x01\x50\x04\x06\x02\x00\x01\x50\x04\x07\x02\x00\x01\x50\x04\x08\x02\x00\x01",
    );
}

fn main(rt: HostRuntime) {
    headers(&rt);
    elements(&rt);
    subelements(&rt);
    accepted(&rt);
}
