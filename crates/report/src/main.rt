// Lists one report frame from standard input: the form, six octets of destination, then the frame.
#![tactic(auto)]

use octets::numbers::LONGEST_FRAME;
use report_listing::put_input;
use stdio::{read_full, write_all};
use texts::Text;

// The form, the destination, the longest frame, and one octet more, so that a longer input is seen to be longer.
const INPUT: usize = 1 + 6 + LONGEST_FRAME + 1;

// Not by `print_for_input`: the text is lent, and not handed on.
fn main(rt: HostRuntime) {
    let mut input = [0u8; INPUT];
    let n = read_full(&rt, &mut input);
    let mut text = Text::new();
    put_input(&mut text, &input[..n]);
    write_all(&rt, text.octets());
}
