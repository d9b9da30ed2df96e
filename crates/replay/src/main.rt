// Replays a recorded list of calls from standard input, and prints each answer. The format of the
// records and the text of each line are those of traces; which calls they are, and the station after
// them, are the contracts of replays.
#![tactic(auto)]

ghost use Rattle.std.specs.Prelude.{◌≡◌};
ghost use Rattle.model.specs.Clocks.{elapsed_clock};
ghost use Rattle.model.specs.Model.{standard};
ghost use Rattle.model.specs.Stations.{step};
ghost use Rattle.station.specs.Views.{view};
ghost use Rattle.replays.specs.Replay.{report_at, replayed, replay_trace};

use arrayvec::ArrayVec;
use replays::{Caller, LONGEST, Replayed, explain_at, outcome_at, put_list, replay_by, report_at};
use request_writer::write_request;
use requesters::Answer;
use requests::Request;
use station::{Outcome, Station};
use stdio::{print, read_full, write_all};
use texts::Text;
use traces::{
    RecordKind, answer_line, elements_at, explanation_line, fill_buffer, put_buffer_line,
    record_kind, trace_refusal_line, writer_call_at,
};

// One octet more than the longest trace has, so that a longer input is seen to be longer.
const INPUT: usize = LONGEST + 1;

// The answer of an outcome printed, and its station.
fn after(rt: &HostRuntime, outcome: Outcome) -> Station
    ensures { result ≡ outcome.station }
{
    print(rt, answer_line(outcome.answer));
    outcome.station
}

// A lent buffer. The text is lent too, here and in read.
fn print_buffer(rt: &HostRuntime, buf: &[u8]) {
    let mut line = Text::new();
    put_buffer_line(&mut line, buf);
    write_all(rt, line.octets());
}

// A report call, and its lent buffer.
fn report(rt: &HostRuntime, g: Station, s: &[u8], at: usize) -> Station
    ensures { view result ≡ (step elapsed_clock standard (view g) (report_at s.now at)).station }
{
    let r = report_at(g, s, at);
    let station = after(rt, r.outcome);
    print_buffer(rt, &r.buf[..r.length]);
    station
}

fn write(rt: &HostRuntime, s: &[u8], at: usize) {
    let c = writer_call_at(s, at);
    let mut buf = ArrayVec::new();
    fill_buffer(&mut buf, c.fill, c.length);
    if let Some(e) = elements_at(s, c.kind, c.count, c.elements) {
        let elements = e.elements;
        let request = Request {
            kind: c.kind,
            dialog: c.dialog,
            count: c.count as usize,
            elements,
        };
        let written = write_request(request, buf.as_mut_slice());
        let answer = written.map_or_else(Answer::Refused, Answer::Length);
        print(rt, answer_line(answer));
        print_buffer(rt, buf.as_slice());
    }
}

fn read(rt: &HostRuntime, s: &[u8], at: usize) {
    let mut text = Text::new();
    put_list(&mut text, s, at);
    write_all(rt, text.octets());
}

// What each call gives is printed.
#[derive(Clone, Copy)]
struct Printed<'a> {
    rt: &'a HostRuntime,
}

// A match on what the record is: for four kinds more than an answer is printed, or something else.
impl Caller for Printed<'_> {
    fn call(&self, g: Station, s: &[u8], at: usize) -> Station {
        let rt = self.rt;
        match record_kind(s, at) {
            Some(RecordKind::Report) => return report(rt, g, s, at),
            Some(RecordKind::WriteRequest) => write(rt, s, at),
            Some(RecordKind::ReadReport) => read(rt, s, at),
            Some(RecordKind::Explain) => {
                let e = explain_at(g, s, at);
                print(rt, explanation_line(e));
            }
            _ => return after(rt, outcome_at(g, s, at)),
        }
        g
    }
}

// The records from the front, while they are whole.
fn replay(rt: &HostRuntime, s: &[u8]) -> Replayed
    ensures { replayed result.reached (view result.station) ≡ replay_trace s.now }
{
    replay_by(&Printed { rt }, s)
}

// The records of an input; what is left of it is refused.
fn run(rt: &HostRuntime, input: &[u8]) {
    let end = input.len().min(LONGEST);
    let r = replay(rt, &input[..end]);
    if r.reached < input.len() {
        print(rt, trace_refusal_line(r.reached));
    }
}

fn main(rt: HostRuntime) {
    let mut input = [0u8; INPUT];
    let n = read_full(&rt, &mut input);
    run(&rt, &input[..n]);
}
