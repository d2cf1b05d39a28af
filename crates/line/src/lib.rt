// The finder program's line: what is found for a task file, as text in lent bytes.

#![tactic(auto)]

ghost use Rattle.std.specs.Prelude.{◌≡◌, length, replicate};
ghost use Rattle.meaning.specs.Place.{nowhere};
ghost use Rattle.meaning.specs.Line.{separating, Prints, printed_spot, line};
ghost use Rattle.meaning.specs.Answer.{done};
ghost use Rattle.decimal.specs.Put.{Put};
ghost use Rattle.placing.specs.Answers.{spot_of};
ghost use Rattle.words.specs.Members.{members_in};
ghost use Rattle.writer.specs.Answer.{outcome_of};
ghost use Rattle.line.specs.Answer.{Lines, sought_of};
ghost use Rattle.line.specs.Sought.{most_due, weight_words};
ghost use Rattle.line.specs.Fits.{line_bytes};

use finding::Found;
use limits::MOST_VARIABLES;
use number::Reason;
use placing::Spot;
use words::WORD_BITS;

// "More than 8,192 bytes give 8 before anything is judged"
const MOST_INPUT: usize = 8192;

// "more than 640 features give 8 after 7"
const MOST_PROGRAM_FEATURES: usize = 640;

const WEIGHT_WORDS: usize = MOST_PROGRAM_FEATURES / WORD_BITS;

// As many words as a workspace with the most features and variables takes. With more features no workspace is as short.
const WORKSPACE_WORDS: usize = 1
    + 3 * MOST_VARIABLES
    + WEIGHT_WORDS
    + MOST_PROGRAM_FEATURES * WEIGHT_WORDS;

// Three decimal digits hold the count of the most features, and each of them.
const FEATURE_DIGITS: usize = 3;

// The longest line: `separated`, the count and the most features, each behind a blank, and the line's end.
pub const LINE_BYTES: usize = 9 + (1 + FEATURE_DIGITS) * (1 + MOST_PROGRAM_FEATURES) + 1;

// Finds the least weights for a task file. Its workspace is spent, and the words of the weights come as zeros.
fn seek(input: &[u8], workspace: &mut [u64], weights: &mut [u64]) -> Result<Found, Reason>
    requires { (length workspace.old ≡ most_due) × (weights.old ≡ replicate weight_words 0) }
    ensures { Prints input.now (sought_of result weights.new) }
{
    if MOST_INPUT < input.len() {
        return Err(Reason::Small);
    }
    opening::open(input, workspace)?;
    finding::find(workspace, weights)
}

// Puts the line for weights that separate.
fn put_separated(text: &mut [u8], weights: &[u64]) -> usize
    requires { (length text.old ≡ line_bytes) × (length weights.now ≡ weight_words) }
    ensures { Put text.old 0 (line nowhere (done (separating (members_in weights.now)))) result text.new }
{
    let count = words::count(weights);
    let first = text::put(text, 0, b"separated");
    let second = decimal::put_word(text, first, count);
    let third = decimal::put_members(text, second, weights);
    text::put(text, third, b"\n")
}

// Where the first fault of an input stands; one that is too long is not judged.
fn input_spot(input: &[u8]) -> Option<Spot>
    ensures { spot_of result ≡ printed_spot input.now }
{
    if MOST_INPUT < input.len() {
        return None;
    }
    locating::task_spot(input)
}

// Puts the line for what was found for an input.
fn put_line(text: &mut [u8], found: Result<Found, Reason>, weights: &[u64], input: &[u8]) -> usize
    requires { (length text.old ≡ line_bytes) × (length weights.now ≡ weight_words) }
    ensures { Put text.old 0 (line (printed_spot input.now) (sought_of found weights.now)) result text.new }
{
    match found {
        Ok(Found::Separated) => put_separated(text, weights),
        Ok(Found::Nothing) => text::put(text, 0, b"none\n"),
        Err(reason) => text::put_refused(text, u64::from(reason), input_spot(input), b"", b""),
    }
}

// The line for a task file goes to the front of a room that is long enough for it. Any bytes are taken.
pub fn line(input: &[u8], room: &mut [u8]) -> Result<usize, Reason>
    ensures { Lines input.now room.old (outcome_of result room.new) }
{
    let mut workspace = [0u64; WORKSPACE_WORDS];
    let mut weights = [0u64; WEIGHT_WORDS];
    let found = seek(input, &mut workspace, &mut weights);
    let mut text = [0u8; LINE_BYTES];
    let end = put_line(&mut text, found, &weights, input);
    text::deliver(&text[..end], room)
}
