// The lines of answers, explanations and lent buffers, each in a text that has room for every one of them.
ghost use Rattle.std.specs.Prelude.{◌≡◌, ◌+◌, ◌*◌, length, take, replicate};
ghost use Rattle.explanations.specs.Explanations.{reason_given, explanation_read};
ghost use Rattle.texts.specs.Text.{Puts};
ghost use Rattle.traces.specs.Lines.{number_line, answer_line, explanation_line, trace_refusal_line, buffer_line};

use arrayvec::ArrayVec;
use explanations::Explanation;
use octets::Refusal;
use requesters::Answer;
use texts::Text;

// What the line of an answer, of an explanation or of a trace that is refused has at most.
pub const LINE: usize = 38;

// A lent buffer has at most so many octets.
pub const BUFFER: usize = 4096;

// `buffer `, those in hexadecimal, and a line feed.
pub const BUFFER_LINE: usize = 7 + 2 * BUFFER + 1;

// The line of a name and a number.
fn put_line(line: &mut Text<LINE>, name: &[u8], n: usize)
    ensures { Puts LINE (length name.now + 20 + 1) (number_line name.now n) line.old line.new }
{
    line.field(name, n);
    line.put(b"\n");
}

// The line of an answer.
pub fn answer_line(answer: Answer) -> Text<LINE>
    ensures { result ≡ answer_line answer }
{
    let mut line = Text::new();
    match answer {
        Answer::Accepted => line.put(b"accepted\n"),
        Answer::Nothing => line.put(b"nothing\n"),
        Answer::Length(n) => put_line(&mut line, b"length ", n),
        Answer::Refused(refusal) => line.refusal(refusal),
    }
    line
}

// The line of a reason.
fn reason_line(e: Explanation) -> Text<LINE>
    ensures { result ≡ explanation_line (reason_given e) }
{
    let mut line = Text::new();
    match e {
        Explanation::LoggedAfter => line.put(b"logged after acceptance\n"),
        Explanation::WrongType => line.put(b"wrong type\n"),
        Explanation::Unmet(id) => put_line(&mut line, b"condition ", id as usize),
        Explanation::LimitReached => line.put(b"limit reached\n"),
        Explanation::Reported => line.put(b"reported\n"),
    }
    line
}

// The line of an explanation, or of the refusal of what it was asked for.
#[tactic(auto, unfolding(crate::specs::Lines::answer_line, crate::specs::Lines::explanation_line))]
pub fn explanation_line(e: Result<Explanation, Refusal>) -> Text<LINE>
    ensures { result ≡ explanation_line (explanation_read e) }
{
    match e {
        Ok(reason) => reason_line(reason),
        Err(refusal) => answer_line(Answer::Refused(refusal)),
    }
}

// The line of a trace that is refused at a place.
pub fn trace_refusal_line(place: usize) -> Text<LINE>
    ensures { result ≡ trace_refusal_line place }
{
    let mut line = Text::new();
    put_line(&mut line, b"trace refused at ", place);
    line
}

// Makes a buffer what a record says: so many octets of one value, and no more than a buffer has.
pub fn fill_buffer(buf: &mut ArrayVec<u8, BUFFER>, fill: u8, length: u16)
    ensures { buf.new.items ≡ take length (replicate BUFFER fill) }
{
    let n = (length as usize).min(BUFFER);
    buf.clear();
    let _ = buf.try_extend_from_slice(&[fill; BUFFER][..n]);
}

// The same, as a buffer of its own.
pub fn lent_buffer(fill: u8, length: u16) -> ArrayVec<u8, BUFFER>
    ensures { result.items ≡ take length (replicate BUFFER fill) }
{
    let mut buf = ArrayVec::new();
    fill_buffer(&mut buf, fill, length);
    buf
}

// The line of a buffer, into a text that is lent: one of so many octets costs a copy each time that it is handed on.
pub fn put_buffer_line(line: &mut Text<BUFFER_LINE>, buf: &[u8])
    ensures { Puts BUFFER_LINE (7 + 2 * length buf.now + 1) (buffer_line buf.now) line.old line.new }
{
    line.put(b"buffer ");
    line.hexes(b"", buf);
    line.put(b"\n");
}

// The same, as a text of its own.
pub fn buffer_line(buf: &ArrayVec<u8, BUFFER>) -> Text<BUFFER_LINE>
    ensures { result ≡ buffer_line buf.now.items }
{
    let mut line = Text::new();
    put_buffer_line(&mut line, buf.as_slice());
    line
}
