// The finder as a program: reads a task file on standard input and prints its line.

#![tactic(auto)]

use line::LINE_BYTES;

const STDOUT_FILENO: i32 = 1;

// One byte more than the program takes, so that a longer file is seen.
const INPUT_BYTES: usize = 8193;

fn main() {
    let mut input = [0u8; INPUT_BYTES];
    let n = io::read_full(0, &mut input);
    let mut room = [0u8; LINE_BYTES];
    let printed = line::line(&input[..n], &mut room);
    io::write_all(STDOUT_FILENO, text::line_in(printed, &room));
}
