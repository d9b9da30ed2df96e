// The conversion to TUs by itself, for C: no part of the product. The test of its compiled code
// (tests/straight) and the benchmark look at it, since a logging call has it inlined.
#![tactic(auto)]

ghost use Rattle.std.specs.Prelude.{◌≡◌};
ghost use Rattle.units.specs.Time.{tus_of};

use units::{Milliseconds, TimeUnits};

#[unsafe(no_mangle)]
pub extern "C" fn tus_of(age: u32) -> u16
    ensures { result ≡ tus_of age }
{
    TimeUnits::from_milliseconds(Milliseconds(age)).0
}
