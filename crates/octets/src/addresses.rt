// Addresses of six octets.
#![tactic(auto, using(laws::proofs::Choice::choices, crate::proofs::AddressLaws::same_pointwise))]

ghost use Rattle.std.specs.Prelude.{◌≡◌};
ghost use Rattle.octets.specs.Addresses.{same as addresses_same, is_group, address_at};

use crate::fields::array_at;

// Are two arrays of octets, as addresses are, the same? `==`, tied here once to the papers' comparison.
pub fn same<const N: usize>(a: [u8; N], b: [u8; N]) -> bool
    ensures { result ≡ addresses_same a.entry b.entry }
{
    a == b
}

// Is it the address of a group?
pub fn is_group(a: [u8; 6]) -> bool
    ensures { result ≡ is_group a }
{
    a[0] % 2 == 1
}

// The address at a position, 0 past the end: `array_at` under the paper's name, with its size.
pub fn address_at(s: &[u8], at: usize) -> [u8; 6]
    ensures { result ≡ address_at s.now at }
{
    array_at(s, at)
}
