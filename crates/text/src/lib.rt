// Texts put into lent bytes: what the lines of the programs have in common.

#![tactic(auto)]

ghost use Rattle.std.specs.Prelude.{◌≡◌, [], ◌∷◌, ◌++◌, ◌+◌, ◌≤◌, length};
ghost use Rattle.meaning.specs.Line.{word, at_place, spot_text, refused_line};
ghost use Rattle.meaning.specs.Answer.{delivered};
ghost use Rattle.decimal.specs.Put.{Put};
ghost use Rattle.placing.specs.Answers.{spot_of};
ghost use Rattle.writer.specs.Answer.{outcome_of};
ghost use Rattle.text.specs.Answer.{EndsWithin, line_in};

use number::Reason;
use placing::Spot;

// Seven decimal digits hold every number of the lines but a place.
const MOST_DIGITS: usize = 7;

// Twenty hold every place in a slice.
const PLACE_DIGITS: usize = 20;

// Room for every line for a refusal: `refused`, a blank and its number, `at`, a blank and a place, ` in weights`, and the line's end.
pub const REFUSED_BYTES: usize = 7 + 1 + MOST_DIGITS + 3 + 1 + PLACE_DIGITS + 11 + 1;

// Puts bytes from a place on, and answers the place after them.
pub fn put(text: &mut [u8], at: usize, bytes: &[u8]) -> usize
    requires { at + length bytes.now ≤ length text.old }
    ensures { Put text.old at bytes.now result text.new }
{
    writer::write_bytes(text, at, bytes)
}

// Puts a line of some bytes and one number.
pub fn put_numbered(text: &mut [u8], bytes: &[u8], number: usize) -> usize
    requires { length bytes.now + length (word number) + 1 ≤ length text.old }
    ensures { Put text.old 0 (bytes.now ++ (word number ++ (10 ∷ []))) result text.new }
{
    let first = put(text, 0, bytes);
    let second = decimal::put_word(text, first, number);
    put(text, second, b"\n")
}

// Puts `at` and a place behind a refusal's number, and the name of the file.
fn put_place(text: &mut [u8], at: usize, place: usize, file: &[u8]) -> usize
    requires { at + length (at_place place ++ file.now) ≤ length text.old }
    ensures { Put text.old at (at_place place ++ file.now) result text.new }
{
    let first = put(text, at, b" at");
    let second = decimal::put_word(text, first, place);
    put(text, second, file)
}

// Puts where a fault stands, with the names of the two files.
fn put_spot(text: &mut [u8], at: usize, spot: Option<Spot>, task: &[u8], weights: &[u8]) -> usize
    requires { at + length (spot_text task.now weights.now (spot_of spot)) ≤ length text.old }
    ensures { Put text.old at (spot_text task.now weights.now (spot_of spot)) result text.new }
{
    match spot {
        None => at,
        Some(Spot::InTask(place)) => put_place(text, at, place, task),
        Some(Spot::InWeights(place)) => put_place(text, at, place, weights),
    }
}

// Puts the line for a refusal, with the names of the two files.
pub fn put_refused(
    text: &mut [u8],
    number: u64,
    spot: Option<Spot>,
    task: &[u8],
    weights: &[u8],
) -> usize
    requires { length (refused_line number (spot_text task.now weights.now (spot_of spot))) ≤ length text.old }
    ensures { Put text.old 0 (refused_line number (spot_text task.now weights.now (spot_of spot))) result text.new }
{
    let first = put(text, 0, b"refused");
    let second = decimal::put_word(text, first, number as usize);
    let third = put_spot(text, second, spot, task, weights);
    put(text, third, b"\n")
}

// Puts a text in front of a room that is long enough for it.
pub fn deliver(text: &[u8], room: &mut [u8]) -> Result<usize, Reason>
    ensures { outcome_of result room.new ≡ delivered text.now room.old }
{
    if room.len() < text.len() {
        return Err(Reason::Small);
    }
    Ok(put(room, 0, text))
}

// The line that stands in front of a room; nothing where the room was too short for it.
pub fn line_in(written: Result<usize, Reason>, room: &[u8]) -> &[u8]
    requires { EndsWithin (length room.now) written }
    ensures { result.now ≡ line_in written room.now }
{
    match written {
        Ok(end) => &room[..end],
        Err(_) => &room[..0],
    }
}
