// Shows the bytes at fault of files that are refused: a part of the one file or of the other, or the words that say where it lies.

#![tactic(auto)]

ghost use Rattle.std.specs.Prelude.{◌≡◌};
ghost use Rattle.meaning.specs.File.{kind_if};
ghost use Rattle.meaning.specs.Place.{shown_as, shown, bytes_in, displayed, Displays, DisplaysNew, DisplaysPartial, DisplaysBay};
ghost use Rattle.placing.specs.Answers.{part_of};
ghost use Rattle.showing.specs.Answer.{leaving_of, place_in};

use number::Reason;
use placing::Part;

// Which of the two files holds the part.
#[derive(Clone, Copy)]
pub enum Displayed {
    Task,
    Weights,
}

// The beginning of a part and its length, a word each.
const PLACE_WORDS: usize = 2;

// The part of a task and weights of a kind that is shown.
#[tactic(auto, unfolding(meaning::specs::Place::shown_as))]
pub fn locate(task: &[u8], gapped: bool, weights: &[u8]) -> Part
    ensures { part_of result ≡ shown_as (kind_if gapped) task.now weights.now }
{
    placing::part_at(task, weights, locating::spot(task, gapped, weights))
}

// The bytes at fault, taken from whichever of the two files holds them. Document 01 names this form: a part of either slice, under named lifetimes.
pub fn display<'a>(task: &'a [u8], weights: &'a [u8]) -> &'a [u8]
    ensures bytes { result.now ≡ bytes_in task.now weights.now (shown task.now weights.now) }
    ensures placed { result.ref_ptr ≡ place_in task.entry.ref_ptr weights.entry.ref_ptr (shown task.now weights.now) }
{
    match locate(task, false, weights) {
        Part::OfTask(place, many) => {
            let end = place + many;
            &task[place..end]
        }
        Part::OfWeights(place, many) => {
            let end = place + many;
            &weights[place..end]
        }
    }
}

// Puts the beginning of a part and its length into the first two words of a room.
fn put_part(part: Part, room: &mut [u64]) -> Result<Displayed, Reason>
    ensures { leaving_of result room.new ≡ displayed (part_of part) room.old }
{
    if room.len() < PLACE_WORDS {
        return Err(Reason::Small);
    }
    let (holder, place, many) = match part {
        Part::OfTask(place, many) => (Displayed::Task, place, many),
        Part::OfWeights(place, many) => (Displayed::Weights, place, many),
    };
    room[0] = place as u64;
    room[1] = many as u64;
    Ok(holder)
}

// Says where the bytes at fault of a task and weights lie.
pub fn display_words(task: &[u8], weights: &[u8], room: &mut [u64]) -> Result<Displayed, Reason>
    ensures { Displays task.now weights.now room.old (leaving_of result room.new) }
{
    put_part(locate(task, false, weights), room)
}

// The same of a task and weights of the new kind.
pub fn display_new(task: &[u8], weights: &[u8], room: &mut [u64]) -> Result<Displayed, Reason>
    ensures { DisplaysNew task.now weights.now room.old (leaving_of result room.new) }
{
    put_part(locate(task, true, weights), room)
}

// The same of a partial task and weights for its built task.
#[tactic(auto, unfolding(meaning::specs::Place::shown_partial))]
pub fn display_partial(
    partial: &[u8],
    weights: &[u8],
    room: &mut [u64],
) -> Result<Displayed, Reason>
    ensures { DisplaysPartial partial.now weights.now room.old (leaving_of result room.new) }
{
    let spot = locating::partial_spot(partial, weights);
    put_part(placing::part_at(partial, weights, spot), room)
}

// The same of a bay file.
#[tactic(auto, unfolding(meaning::specs::Place::shown_bay))]
pub fn display_bay(bay: &[u8], room: &mut [u64]) -> Result<Displayed, Reason>
    ensures { DisplaysBay bay.now room.old (leaving_of result room.new) }
{
    put_part(placing::part_at(bay, b"", building::spot(bay)), room)
}
