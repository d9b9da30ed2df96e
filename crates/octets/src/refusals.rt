// Refusals (document 01: a call is turned away): why, and where.
ghost use Rattle.std.specs.Prelude.{◌≡◌};
ghost use Rattle.octets.specs.Refusals.{cause_number};

// The causes of document 01's table, "Why a call is turned away", in its order; the last is document 02's (f).
#[derive(Clone, Copy, PartialEq, Eq)]
pub enum Cause {
    BadFrameLength = 1,
    BadHeader = 2,
    ZeroDialogToken = 3,
    ElementPastEnd = 4,
    ShortElement = 5,
    BadElementToken = 6,
    BadSubelement = 7,
    RepeatedSubelement = 8,
    TooManyElements = 9,
    NoElement = 10,
    GroupDestination = 11,
    UnknownRequester = 12,
    ShortBuffer = 13,
    BadTime = 14,
    BadRequesterList = 15,
    BadIdentity = 16,
    BadReportBody = 17,
    NoLoggedEvent = 18,
}

impl Cause {
    // Its number in the table.
    pub fn number(self) -> u8
        ensures { result ≡ cause_number self }
    {
        self as u8
    }

    // For this cause, at a place.
    pub fn at(self, place: usize) -> Refusal
        ensures { result ≡ record { cause = self; place = place } }
    {
        Refusal { cause: self, place }
    }
}

// A cause, and the place that document 01 returns with it.
#[derive(Clone, Copy, PartialEq, Eq)]
pub struct Refusal {
    pub cause: Cause,
    pub place: usize,
}
