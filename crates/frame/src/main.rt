// Document 01's frame program: lists one request frame, read from standard input.
#![tactic(auto)]

use octets::numbers::LONGEST_FRAME;
use request_listing::list_frame;
use stdio::print_for_input;

// One octet more than the longest frame has, so that a longer input is seen to be longer.
const INPUT: usize = LONGEST_FRAME + 1;

fn main(rt: HostRuntime) {
    print_for_input(&rt, [0u8; INPUT], list_frame);
}
