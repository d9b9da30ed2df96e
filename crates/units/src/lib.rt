// Time: milliseconds of the counter, elapsed milliseconds, TUs, and every conversion between units
// (document 01, "Clock and transition time"; document 02 (c)).
#![tactic(auto)]

ghost use Rattle.std.specs.Prelude.{◌≡◌, ◌*◌};
ghost use Rattle.units.specs.Time.{age, advance, elapsed_since, exceeds, tus_of, at_least};

// Milliseconds of the 32-bit counter (document 01: a reading, the difference of two, or a limit).
#[repr(C)]
#[derive(Clone, Copy, PartialEq, Eq, PartialOrd, Ord)]
pub struct Milliseconds(pub u32);

// Milliseconds since a gate's first call (document 02 (c): a stamp or an acceptance time), or between two such times.
#[repr(C)]
#[derive(Clone, Copy, PartialEq, Eq, PartialOrd, Ord)]
pub struct Elapsed(pub u64);

// Time units of 1,024 microseconds (document 01: TUs).
#[repr(C)]
#[derive(Clone, Copy, PartialEq, Eq, PartialOrd, Ord)]
pub struct TimeUnits(pub u16);

impl Milliseconds {
    const SECOND: u32 = 1000;

    const MINUTE: u32 = 60000;

    // The age between this reading and an earlier one, also across the counter's rollover.
    pub fn since(self, earlier: Milliseconds) -> Milliseconds
        ensures { result.0 ≡ age self.0 earlier.0 }
    {
        Milliseconds(self.0.wrapping_sub(earlier.0))
    }

    // A product each: a function over the unit would be a third one, with a bound that these two must meet.
    pub fn from_seconds(n: u16) -> Milliseconds
        ensures { result.0 ≡ n * 1000 }
    {
        Milliseconds(u32::from(n) * Milliseconds::SECOND)
    }

    pub fn from_minutes(n: u16) -> Milliseconds
        ensures { result.0 ≡ n * 60000 }
    {
        Milliseconds(u32::from(n) * Milliseconds::MINUTE)
    }
}

impl From<Milliseconds> for Elapsed {
    ghost from_gives = { λ x y. y.0 ≡ x.0 };

    fn from(age: Milliseconds) -> Elapsed {
        Elapsed(u64::from(age.0))
    }
}

impl Elapsed {
    // So many milliseconds later; the top where that would pass it.
    pub fn advance(self, by: Milliseconds) -> Elapsed
        ensures { result.0 ≡ advance self.0 by.0 }
    {
        Elapsed(self.0.saturating_add(u64::from(by.0)))
    }

    // The age between this time and an earlier one; 0 where that is not earlier. No twin of the counter's, which
    // wraps.
    pub fn since(self, earlier: Elapsed) -> Elapsed
        ensures { result.0 ≡ elapsed_since self.0 earlier.0 }
    {
        Elapsed(self.0.saturating_sub(earlier.0))
    }

    // The time so long before this one; 0 where that would be before the first call.
    pub fn before(self, by: Milliseconds) -> Elapsed
        ensures { result.0 ≡ elapsed_since self.0 by.0 }
    {
        self.since(Elapsed::from(by))
    }

    // Is this age more than a limit?
    pub fn exceeds(self, limit: Milliseconds) -> bool
        ensures { result ≡ exceeds self.0 limit.0 }
    {
        Elapsed::from(limit) < self
    }

    // Is this time at or after another? One line over the derived order, as a TimeUnits' `at_least`, under the
    // paper's words: two edits here hold which way each goes, and tests/straight plants a call of one.
    pub fn at_least(self, earliest: Elapsed) -> bool
        ensures { result ≡ at_least self.0 earliest.0 }
    {
        earliest <= self
    }
}

impl TimeUnits {
    // A millisecond is 125 / 128 TU.
    const NUMERATOR: u64 = 125;

    const DENOMINATOR: u64 = 128;

    const MOST: u64 = 65535;

    // How many numbers there are up to MOST: divided by it, these give 0 and all others more.
    const SPAN: u64 = 65536;

    // The one conversion: rounded down, and MOST where it is more. `over` is 1 there and 0 elsewhere, so
    // that every age takes the same path, and no function of a library is called (document 02, (b)): hence `as`.
    pub fn from_milliseconds(age: Milliseconds) -> TimeUnits
        ensures { result.0 ≡ tus_of age.0 }
    {
        let tus = (age.0 as u64) * TimeUnits::NUMERATOR / TimeUnits::DENOMINATOR;
        let over = (tus / TimeUnits::SPAN + TimeUnits::MOST) / TimeUnits::SPAN;
        TimeUnits((tus % TimeUnits::SPAN * (1 - over) + TimeUnits::MOST * over) as u16)
    }

    // Is this time at or above a threshold?
    pub fn at_least(self, threshold: TimeUnits) -> bool
        ensures { result ≡ at_least self.0 threshold.0 }
    {
        threshold <= self
    }
}
