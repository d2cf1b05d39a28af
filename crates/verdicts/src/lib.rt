// The checker's line: the verdict on weights for a task, as text in lent bytes.

#![tactic(auto)]

ghost use Rattle.std.specs.Prelude.{◌≡◌, length};
ghost use Rattle.meaning.specs.Number.{Small, refusal};
ghost use Rattle.meaning.specs.Answer.{refused, delivered};
ghost use Rattle.meaning.specs.Place.{nowhere};
ghost use Rattle.meaning.specs.Line.{too_long, checked_spot, verdict_line};
ghost use Rattle.checking.specs.Answer.{verdict_of};
ghost use Rattle.decimal.specs.Put.{Put};
ghost use Rattle.writer.specs.Answer.{outcome_of};
ghost use Rattle.verdicts.specs.Answer.{VerdictLines, FileLines};
ghost use Rattle.verdicts.specs.Fits.{Short, verdict_bytes};

use checking::Verdict;
use number::Reason;

// The most bytes of a task file and of a weight file that the program takes.
pub const MOST_TASK: usize = 1048576;

pub const MOST_WEIGHTS: usize = 131072;

// Room for every line; one for a refusal with a place needs the most.
pub const VERDICT_BYTES: usize = text::REFUSED_BYTES;

// Puts the line for a verdict on weights for a task.
fn put_verdict(text: &mut [u8], verdict: Verdict, task: &[u8], weights: &[u8]) -> usize
    requires { (length text.old ≡ verdict_bytes) × Short (verdict_of verdict) }
    ensures { Put text.old 0 (verdict_line (checked_spot task.now weights.now) (verdict_of verdict)) result text.new }
{
    match verdict {
        Verdict::Accepted => text::put(text, 0, b"accepted\n"),
        Verdict::EndsAlike => text::put(text, 0, b"rejected ends alike\n"),
        Verdict::Operator(j) => text::put_numbered(text, b"rejected operator", j),
        Verdict::Refused(number) => text::put_refused(
            text,
            number,
            locating::spot(task, false, weights),
            b" in task",
            b" in weights",
        ),
    }
}

// The line for a task file and a weight file goes to the front of a room that is long enough for it. Any bytes are taken.
pub fn line(task: &[u8], weights: &[u8], room: &mut [u8]) -> Result<usize, Reason>
    ensures { VerdictLines task.now weights.now room.old (outcome_of result room.new) }
{
    let verdict = checking::check(task, weights);
    let mut text = [0u8; VERDICT_BYTES];
    let end = put_verdict(&mut text, verdict, task, weights);
    text::deliver(&text[..end], room)
}

// Whether one of two files has more bytes than the program takes.
pub fn are_long(task: &[u8], weights: &[u8]) -> bool
    ensures { result ≡ too_long task.now weights.now }
{
    MOST_TASK < task.len() || MOST_WEIGHTS < weights.len()
}

// The line where a file is too long.
fn refuse_long(room: &mut [u8]) -> Result<usize, Reason>
    ensures { outcome_of result room.new ≡ delivered (verdict_line nowhere (refused (refusal Small))) room.old }
{
    let mut text = [0u8; VERDICT_BYTES];
    let end = text::put_refused(&mut text, u64::from(Reason::Small), None, b"", b"");
    text::deliver(&text[..end], room)
}

// The program's line: as `line`, but a longer file gives 8 before anything is judged.
pub fn program_line(task: &[u8], weights: &[u8], room: &mut [u8]) -> Result<usize, Reason>
    ensures { FileLines task.now weights.now room.old (outcome_of result room.new) }
{
    if are_long(task, weights) {
        return refuse_long(room);
    }
    line(task, weights, room)
}
