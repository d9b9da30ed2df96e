// Standard input and output, as the programs here use them: octets into an array, and texts. A read
// that fails is the end of the input, and what can't be written is let go, so that what a program says of
// its input never depends on its output.
#![tactic(auto)]

ghost use Rattle.std.specs.Prelude.{◌≤◌, length};

use std::convert::AsSlice;
use std::io;
use std::io::{Read, Write};

// Standard input, until the buffer is full or the input ends; how many octets it has. A loop: std's
// `read_exact` does not tell how many it read of an input that ends.
pub fn read_full(rt: &HostRuntime, buf: &mut [u8]) -> usize
    ensures { result ≤ length buf.new }
{
    let mut input = rt.stdin();
    let mut done: usize = 0;
    while done < buf.len() {
        let n = input.read(&mut buf[done..]).unwrap_or(0);
        if n == 0 {
            return done;
        }
        done += n;
    }
    done
}

// Octets to standard output.
pub fn write_all(rt: &HostRuntime, octets: &[u8]) {
    let _ = io::writer(rt).write_all(octets);
}

// A text to standard output.
pub fn print<T: AsSlice<u8> + Drop>(rt: &HostRuntime, text: T) {
    write_all(rt, text.as_slice());
}

// Prints what a program says of its standard input, of which it reads as many octets as there is room for.
pub fn print_for_input<const N: usize, T: AsSlice<u8> + Drop, F: FnOnce(&[u8]) -> T>(
    rt: &HostRuntime,
    room: [u8; N],
    text: F,
)
    requires { F.IsAlwaysCallable text }
{
    let mut input = room;
    let n = read_full(rt, &mut input);
    print(rt, text(&input[..n]));
}
