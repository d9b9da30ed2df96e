// The numbers of frames, elements and statuses, each named once.
#![tactic(auto, using(laws::proofs::Choice::choices))]

ghost use Rattle.std.specs.Prelude.{◌≡◌};
ghost use Rattle.octets.specs.Numbers.{request_action, report_action, request_id, report_id, kind_of, number_of};

pub const CATEGORY: u8 = 10;

pub const SHORTEST_FRAME: usize = 3;

pub const LONGEST_FRAME: usize = 2304;

pub const REPORT_BUFFER: usize = 260;

pub const REQUEST_BUFFER: usize = 267;

// The statuses of a report that the code speaks of; Cancelled is the last. Numbers, since a report that is read
// may have any octet there.
pub const SUCCESSFUL: u8 = 0;

pub const INCAPABLE: u8 = 3;

pub const CANCELLED: u8 = 4;

// What a frame asks for or reports.
#[derive(Clone, Copy, PartialEq, Eq)]
pub enum Kind {
    Event,
    Diagnostic,
}

// Four numbers by kind, each under its name: one function would have to be told which of the four.
impl Kind {
    pub fn request_action(self) -> u8
        ensures { result ≡ request_action self }
    {
        match self {
            Kind::Event => 0,
            Kind::Diagnostic => 2,
        }
    }

    pub fn report_action(self) -> u8
        ensures { result ≡ report_action self }
    {
        match self {
            Kind::Event => 1,
            Kind::Diagnostic => 3,
        }
    }

    // The ID of the elements that count in a request frame.
    pub fn request_id(self) -> u8
        ensures { result ≡ request_id self }
    {
        match self {
            Kind::Event => 78,
            Kind::Diagnostic => 80,
        }
    }

    // The ID of the elements that count in a report frame.
    pub fn report_id(self) -> u8
        ensures { result ≡ report_id self }
    {
        match self {
            Kind::Event => 79,
            Kind::Diagnostic => 81,
        }
    }
}

// The kind of a number, where one stands for it: 0 is an event's, any other a diagnostic's.
impl From<u8> for Kind {
    ghost from_gives = { λ number kind. kind ≡ kind_of number };

    fn from(number: u8) -> Kind {
        match number {
            0 => Kind::Event,
            1..=255 => Kind::Diagnostic,
        }
    }
}

// Its number: 0 an event's, 1 a diagnostic's.
impl From<Kind> for u8 {
    ghost from_gives = { λ kind number. number ≡ number_of kind };

    fn from(kind: Kind) -> u8 {
        kind as u8
    }
}
