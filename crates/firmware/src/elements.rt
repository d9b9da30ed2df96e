// The elements of requests and reports: what C hands in, and what it is given.
ghost use Rattle.std.specs.Prelude.{◌≡◌, map, take};
ghost use Rattle.firmware.specs.Numbers.{condition_of, element_from, numbered_element};

use crate::{Condition, ReportElement, RequestElement};
use report_reader::Element;
use requests::{ELEMENT_CAPACITY, blank_elements};

impl From<Condition> for subelements::Condition {
    ghost from_gives = { λ c condition. condition ≡ condition_of c };

    fn from(c: Condition) -> subelements::Condition {
        let octets = c.octets;
        subelements::Condition {
            present: c.present != 0,
            octets,
        }
    }
}

impl From<RequestElement> for requests::Element {
    ghost from_gives = { λ e element. element ≡ element_from e };

    fn from(e: RequestElement) -> requests::Element {
        let filter = e.filter.map(subelements::Condition::from);
        requests::Element {
            token: e.token,
            ty: e.ty,
            timeout: e.timeout,
            subs: 0,
            limit: e.limit,
            filter,
        }
    }
}

// The first count elements of a request for the writer, which looks at no other; those are blank.
pub(crate) fn elements_of(
    es: &[RequestElement; ELEMENT_CAPACITY],
    count: usize,
) -> [requests::Element; ELEMENT_CAPACITY]
    ensures { take count result ≡ map element_from (take count es.now) }
{
    let mut elements = blank_elements();
    for i in 0..count.min(ELEMENT_CAPACITY) {
        elements[i] = requests::Element::from(es[i]);
    }
    elements
}

impl From<Element> for ReportElement {
    ghost from_gives = { λ e element. element ≡ numbered_element e };

    fn from(e: Element) -> ReportElement {
        ReportElement {
            token: e.token,
            ty: e.ty,
            status: e.status,
            logged: u8::from(e.logged),
            length: e.length,
            subs: e.subs,
        }
    }
}
