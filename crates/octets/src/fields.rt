// Fields of one octet, of two, least octet first, and of more.
#![tactic(auto, using(laws::proofs::Choice::choices, crate::proofs::PlaceLaws::reads), unfolding(crate::specs::Fields::octets_at))]

ghost use Rattle.std.specs.Prelude.{◌≡◌, ◌≤◌, ◌<◌, length, get_or};
ghost use Rattle.octets.specs.Fields.{pair as fields_pair, low as fields_low, high as fields_high, pair_at, octets_at};

use crate::buffers::copy;

// The octet at a position, 0 past the end.
pub fn octet(s: &[u8], at: usize) -> u8
    ensures { result ≡ get_or s.now at 0 }
{
    if at < s.len() { s[at] } else { 0 }
}

// The octet at a position, as a length.
pub fn size(s: &[u8], at: usize) -> usize
    ensures { (result ≡ get_or s.now at 0) × (result < 256) }
{
    usize::from(octet(s, at))
}

// The field of two octets.
pub fn pair(low: u8, high: u8) -> u16
    ensures { result ≡ fields_pair low high }
{
    u16::from_le_bytes([low, high])
}

// The two octets of a field.
pub fn low(x: u16) -> u8
    ensures { result ≡ fields_low x }
{
    x.to_le_bytes()[0]
}

pub fn high(x: u16) -> u8
    ensures { result ≡ fields_high x }
{
    x.to_le_bytes()[1]
}

// The field of two octets at a position, 0 past the end.
pub fn pair_at(s: &[u8], at: usize) -> u16
    ensures { result ≡ pair_at s.now at }
{
    if s.len() <= at {
        return 0;
    }
    pair(octet(s, at), octet(s, at + 1))
}

// The octets at a position one by one, 0 past the end.
fn read_cut(s: &[u8], at: usize, out: &mut [u8])
    requires { at ≤ length s.now }
    ensures { out.new ≡ octets_at s.now at (length out.old) }
{
    for (i, x) in out.iter_mut().enumerate() {
        *x = octet(s, at + i);
    }
}

// The octets at a position, as many as an array takes, 0 past the end.
fn read_at(s: &[u8], at: usize, out: &mut [u8])
    ensures { out.new ≡ octets_at s.now at (length out.old) }
{
    let from = at.min(s.len());
    if s.len() - from < out.len() {
        return read_cut(s, from, out);
    }
    copy(&s[from..from + out.len()], out);
}

// The octets at a position as an array of known size, 0 past the end.
pub fn array_at<const N: usize>(s: &[u8], at: usize) -> [u8; N]
    ensures { result ≡ octets_at s.now at N }
{
    let mut out = [0u8; N];
    read_at(s, at, &mut out);
    out
}
