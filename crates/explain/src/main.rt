// Explains an absent event (document 02 (f)). Standard input is a record 18 (hexadecimal 12) of a trace without its
// number, then a trace; the log is that of the station after the trace. What is printed is the text of
// replays.
#![tactic(auto)]

use replays::{LONGEST, explain_line};
use stdio::{print, read_full};
use traces::BUFFER;

// The record's number, its longest fields, and one octet more than the longest trace has.
const INPUT: usize = 1 + (2 + BUFFER + 4) + LONGEST + 1;

// The record's number.
const EXPLAIN: u8 = 18;

fn main(rt: HostRuntime) {
    let mut input = [EXPLAIN; INPUT];
    let n = read_full(&rt, &mut input[1..]);
    print(&rt, explain_line(&input[..1 + n]));
}
