// The model of a station (document 01: a gate), in specs/, and the independence of its requesters
// (demand 3), in proofs/. The code of the station meets it; here are the types that both share.
#![tactic(auto)]

ghost use Rattle.std.specs.Prelude.{◌≡◌};
ghost use Rattle.model.specs.Diagnostics.{diagnostic_of};

use requests::Element;

// How many requesters a station has at most, and the last place of them.
pub const REQUESTER_CAPACITY: usize = 4;

pub const REQUESTER_LAST: usize = REQUESTER_CAPACITY - 1;

// A diagnostic element that is not answered yet: its token, its type (ty), its timeout in seconds.
#[repr(C)]
#[derive(Clone, Copy)]
pub struct Diagnostic {
    pub token: u8,
    pub ty: u8,
    pub timeout: u16,
}

impl From<Element> for Diagnostic {
    ghost from_gives = { λ x diagnostic. diagnostic ≡ diagnostic_of x };

    fn from(x: Element) -> Diagnostic {
        Diagnostic {
            token: x.token,
            ty: x.ty,
            timeout: x.timeout,
        }
    }
}

// What a type number decides: report events, answer Incapable, cancel, or give the identity.
#[derive(Clone, Copy, PartialEq, Eq)]
pub enum Treatment {
    Report,
    Incapable,
    Cancel,
    Identity,
}
