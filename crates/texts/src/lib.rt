// Text in ASCII, into a text of fixed capacity: names with numbers behind them, octets in hexadecimal,
// and the lines that several programs print. No `Display`: `write!` promises its text only where it
// answers Ok, and no contract says when it does, so that a text that has room could not be promised.
#![tactic(auto)]

ghost use Rattle.std.specs.Prelude.{◌≡◌, ℕ, ◌&&◌, [], ◌∷◌, ◌++◌, ◌+◌, ◌*◌, ◌^◌, ◌<◌, ◌≤◌, eqb, leb, length, drop};
ghost use Rattle.std.proofs.Common.{rules};
ghost use Rattle.octets.specs.Refusals.{refusal_of};
ghost use Rattle.texts.specs.Text.{digit as text_digit, decimal, named, hexed, hexes, refusal_line, refusal_most, frame_line, element_head, Puts, PutsWhole, put_whole};

use arrayvec::ArrayVec;
use octets::Refusal;
use std::convert::AsSlice;
use std::marker::Model;

// What the line of a refusal has at most.
const REFUSAL: usize = 36;

// A number of 64 bits has at most so many digits.
const DIGITS: usize = 20;

// ---- numbers

// The character of a digit below 16.
fn digit(x: u8) -> u8
    requires { x < 16 }
    ensures { result ≡ text_digit x }
{
    if x < 10 { b'0' + x } else { b'a' - 10 + x }
}

// A number that is listed in decimal: what it counts, and how many digits that has at most.
pub trait Number {
    ghost value: { Self → ℕ };

    ghost digits: { ℕ };

    fn wide(self) -> u64
        ensures same { result ≡ value self }
        ensures few { result < 10 ^ digits };

    ghost some: { 0 < digits };
}

impl Number for u8 {
    ghost value = { λ x. x };

    ghost digits = { 3 };

    ghost some = { Prim.search rules };

    fn wide(self) -> u64 {
        u64::from(self)
    }
}

impl Number for u16 {
    ghost value = { λ x. x };

    ghost digits = { 5 };

    ghost some = { Prim.search rules };

    fn wide(self) -> u64 {
        u64::from(self)
    }
}

// A length or a place.
impl Number for usize {
    ghost value = { λ x. x };

    ghost digits = { 20 };

    ghost some = { Prim.search rules };

    fn wide(self) -> u64 {
        self as u64
    }
}

// Was that the first digit: none is left of the number, and enough are there?
fn is_first(rest: u64, least: usize) -> bool
    ensures { result ≡ (eqb rest 0 && leb least 1) }
{
    rest == 0 && least <= 1
}

// The digits of a number at the end of an array, with zeros in front up to a number of digits; where
// they begin.
fn spell(text: &mut [u8; DIGITS], n: u64, digits: usize) -> usize
    ensures text { drop result text.new ≡ decimal digits n }
    ensures within { result ≤ DIGITS }
{
    let mut rest = n;
    let mut least = digits;
    for i in (0..DIGITS).rev() {
        text[i] = digit((rest % 10) as u8);
        rest /= 10;
        if is_first(rest, least) {
            return i;
        }
        least = least.saturating_sub(1);
    }
    0
}

// ---- texts

// A text of at most N octets. What no longer fits is left out whole.
#[derive(Drop)]
pub struct Text<const N: usize> {
    octets: ArrayVec<u8, N>,
}

impl<const N: usize> Model for Text<N> {
    ghost use Rattle.std.specs.Prelude.{ℕ, List};

    ghost Value = { List ℕ };

    ghost view = { λ t. t.octets.items };
}

impl<const N: usize> Text<N> {
    // Nothing.
    pub fn new() -> Self
        ensures { result ≡ [] }
    {
        Text {
            octets: ArrayVec::new(),
        }
    }

    // Its octets, at most N: so a text that is promised whole has no more either.
    pub fn octets(&self) -> &[u8]
        ensures value { result.now ≡ self.now }
        ensures fits { length result.now ≤ N }
    {
        self.octets.as_slice()
    }

    // Octets, as they stand.
    pub fn put(&mut self, o: &[u8])
        ensures { self.new ≡ put_whole N o.now self.old }
    {
        let _ = self.octets.try_extend_from_slice(o);
    }

    // One octet.
    fn push(&mut self, x: u8)
        ensures { self.new ≡ put_whole N (x ∷ []) self.old }
    {
        let _ = self.octets.try_push(x);
    }

    // How many more octets fit.
    fn room(&self) -> usize
        ensures { result + length self.now ≡ N }
    {
        self.octets.remaining_capacity()
    }

    // One text and another behind it; both or nothing.
    pub fn put_two(&mut self, front: &[u8], back: &[u8])
        ensures { self.new ≡ put_whole N (front.now ++ back.now) self.old }
    {
        let room = self.room();
        if room < front.len() {
            return;
        }
        if room - front.len() < back.len() {
            return;
        }
        self.put(front);
        self.put(back);
    }

    // A number in decimal behind a name, with zeros in front of it up to a number of digits.
    pub fn number(&mut self, name: &[u8], n: u64, digits: usize)
        ensures { self.new ≡ put_whole N (name.now ++ decimal digits n) self.old }
    {
        let mut text = [0u8; DIGITS];
        let from = spell(&mut text, n, digits);
        self.put_two(name, &text[from..]);
    }

    // A number in decimal behind a name.
    pub fn field<T: Number>(&mut self, name: &[u8], n: T)
        ensures { PutsWhole N (length name.now + T.digits) (named name.now (T.value n)) self.old self.new }
    {
        self.number(name, n.wide(), 1);
    }

    // An octet as two hexadecimal digits, behind a name. Not by put_two, which would read them from an array in memory:
    // that takes several times as long.
    pub fn hex(&mut self, name: &[u8], x: u8)
        ensures { PutsWhole N (length name.now + 2) (hexed name.now x) self.old self.new }
    {
        if self.room().saturating_sub(name.len()) < 2 {
            return;
        }
        let [high, low] = [digit(x / 16), digit(x % 16)];
        self.put(name);
        self.push(high);
        self.push(low);
    }

    // Octets in hexadecimal, each behind a name.
    pub fn hexes(&mut self, name: &[u8], o: &[u8])
        ensures { Puts N ((length name.now + 2) * length o.now) (hexes name.now o.now) self.old self.new }
    {
        for x in o {
            self.hex(name, *x);
        }
    }

    // ---- lines

    // The line of a refusal; all of it or nothing.
    pub fn refusal(&mut self, r: Refusal)
        ensures { PutsWhole N refusal_most (refusal_line (refusal_of r)) self.old self.new }
    {
        let line = refusal_line(r);
        self.put(line.octets());
    }

    // The first line of a frame's listing.
    pub fn frame(&mut self, name: &[u8], action: u8, dialog: u8, count: usize)
        ensures { Puts N (length name.now + 45) (frame_line name.now action dialog count) self.old self.new }
    {
        self.field(name, action);
        self.field(b" dialog ", dialog);
        self.field(b" elements ", count);
        self.put(b"\n");
    }

    // What the line of an element starts with.
    pub fn element_head(&mut self, id: u8, token: u8, ty: u8)
        ensures { Puts N 30 (element_head id token ty) self.old self.new }
    {
        self.field(b"element ", id);
        self.field(b" token ", token);
        self.field(b" type ", ty);
    }
}

impl<const N: usize> AsSlice<u8> for Text<N> {
    ghost items = { λ text. text };

    fn as_slice(&self) -> &[u8] {
        self.octets()
    }
}

// The line of a refusal alone.
fn refusal_line(r: Refusal) -> Text<REFUSAL>
    ensures { result ≡ refusal_line (refusal_of r) }
{
    let mut line = Text::new();
    line.field(b"refused ", r.cause.number());
    line.field(b" at ", r.place);
    line.put(b"\n");
    line
}
