// The bay builder as a program: a bay file on standard input, its task file on standard output; or a line on standard error that says why there is none.

#![tactic(auto)]

ghost use Rattle.std.specs.Prelude.{◌≡◌, length};
ghost use Rattle.meaning.specs.Number.{refusal as refusal_number};
ghost use Rattle.meaning.specs.Line.{bay_line};
ghost use Rattle.number.specs.Answers.{reason_of};
ghost use Rattle.decimal.specs.Put.{Put};
ghost use Rattle.text.specs.Parts.{refused_bytes};

use number::Reason;
use text::REFUSED_BYTES;

const STDOUT_FILENO: i32 = 1;

const STDERR_FILENO: i32 = 2;

// An accepted bay file has at most 2 + 2 * 16 numbers of one byte each. So whatever stands behind these bytes changes no answer and no place: a longer file is
// refused for a fault in front of it, or because bytes are left over.
const INPUT_BYTES: usize = 64;

// Room for the longest task file of a bay, that of four by four, which has 9,845 bytes.
const TASK_BYTES: usize = 10240;

// Puts the line for a bay file that is refused.
fn put_refused(text: &mut [u8], bay: &[u8], reason: Reason) -> usize
    requires { length text.old ≡ refused_bytes }
    ensures { Put text.old 0 (bay_line bay.now (refusal_number (reason_of reason))) result text.new }
{
    text::put_refused(text, u64::from(reason), building::spot(bay), b"", b"")
}

// Prints that line.
fn print_refused(bay: &[u8], reason: Reason) {
    let mut text = [0u8; REFUSED_BYTES];
    let end = put_refused(&mut text, bay, reason);
    io::write_all(STDERR_FILENO, &text[..end]);
}

fn main() {
    let mut input = [0u8; INPUT_BYTES];
    let n = io::read_full(0, &mut input);
    let bay = &input[..n];
    let mut task = [0u8; TASK_BYTES];
    match building::build(bay, &mut task) {
        Ok(end) => {
            io::write_all(STDOUT_FILENO, &task[..end]);
        }
        Err(reason) => {
            print_refused(bay, reason);
        }
    }
}
