// Times of nine octets, and their rule (cause 14).
#![tactic(auto, using(laws::proofs::Choice::choices), unfolding(crate::specs::Times::in_range, crate::specs::Times::good_clock, crate::specs::Times::good_date, crate::specs::Times::good_time))]

ghost use Rattle.std.specs.Prelude.{◌≡◌};
ghost use Rattle.octets.specs.Times.{in_range, good_date, good_clock, good_time, time_at};

use crate::fields::{array_at, pair};

// Is a field in its range, or all ones: unknown?
fn in_range(least: u16, most: u16, ones: u16, x: u16) -> bool
    ensures { result ≡ in_range least most ones x }
{
    x == ones || (least..=most).contains(&x)
}

fn good_date(day: u8, month: u8) -> bool
    ensures { result ≡ good_date day month }
{
    in_range(1, 31, 255, u16::from(day)) && in_range(1, 12, 255, u16::from(month))
}

fn good_clock(second: u8, minute: u8, hour: u8) -> bool
    ensures { result ≡ good_clock second minute hour }
{
    in_range(0, 59, 255, u16::from(second))
        && in_range(0, 59, 255, u16::from(minute))
        && in_range(0, 23, 255, u16::from(hour))
}

// Is each field of a time in its range, or unknown?
pub fn good_time(t: [u8; 9]) -> bool
    ensures { result ≡ good_time t }
{
    in_range(0, 999, 65535, pair(t[0], t[1]))
        && good_clock(t[2], t[3], t[4])
        && good_date(t[5], t[6])
}

// The time at a position, 0 past the end: `array_at` under the paper's name, with its size.
pub fn time_at(s: &[u8], at: usize) -> [u8; 9]
    ensures { result ≡ time_at s.now at }
{
    array_at(s, at)
}
