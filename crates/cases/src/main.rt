// Checks the cases of standard input, one after another, and prints a line for each.

#![tactic(auto)]

ghost use Rattle.std.specs.Prelude.{◌+◌, ◌≤◌, length};

use verdicts::VERDICT_BYTES;

const STDOUT_FILENO: i32 = 1;

// How many bytes say how long a file is.
const LENGTH_BYTES: usize = 2;

// How many values a byte has.
const BYTE_VALUES: usize = 256;

// Where a file ends whose length stands at a place, in two bytes with the high byte first: at the latest where all bytes end.
fn file_end(bytes: &[u8], at: usize) -> usize
    requires { at + 2 ≤ length bytes.now }
    ensures { (at + 2 ≤ result) × (result ≤ length bytes.now) }
{
    let high = bytes[at] as usize;
    let low = bytes[at + 1] as usize;
    let length = high * BYTE_VALUES + low;
    let first = at + LENGTH_BYTES;
    if bytes.len() - first < length {
        return bytes.len();
    }
    first + length
}

// Prints the checker's line for a case.
fn print(task: &[u8], weights: &[u8]) {
    let mut room = [0u8; VERDICT_BYTES];
    let printed = verdicts::line(task, weights, &mut room);
    io::write_all(STDOUT_FILENO, text::line_in(printed, &room));
}

fn main() {
    let mut input = io::large_buffer();
    let n = io::read_full(0, &mut input);
    let bytes = &input[..n];
    let mut at = 0;
    while at + LENGTH_BYTES <= n {
        let middle = file_end(bytes, at);
        if n < middle + LENGTH_BYTES {
            return;
        }
        let end = file_end(bytes, middle);
        print(
            &bytes[at + LENGTH_BYTES..middle],
            &bytes[middle + LENGTH_BYTES..end],
        );
        at = end;
    }
}
