// Converts task files and weight files of one kind into the other.

#![tactic(auto)]

ghost use Rattle.std.specs.Prelude.{◌≡◌, List, ℕ, ◌≤◌, replicate};
ghost use Rattle.meaning.specs.Limits.{most_features};
ghost use Rattle.meaning.specs.File.{kind_if, other, judged_as};
ghost use Rattle.meaning.specs.Workspace.{words_for};
ghost use Rattle.meaning.specs.Convert.{Converts, ConvertsToNew, ConvertsToOld, ConvertsWeights, ConvertsWeightsToNew, ConvertsWeightsToOld};
ghost use Rattle.task.specs.Answer.{AcceptedAs};
ghost use Rattle.writer.specs.Answer.{outcome_of};
ghost use Rattle.converting.specs.Answer.{WeightsBy};

use limits::{HEADER_WORDS, MOST_WORDS};
use number::Reason;
use reader::Header;

// Writes the file of a kind for a task file that was accepted as the other, by its header in words and its counts: the operators as they stand in that file.
fn convert_in(
    task: &[u8],
    words: &[u64],
    header: Header,
    gapped: bool,
    room: &mut [u8],
) -> Result<usize, Reason>
    requires { (old : List ℕ) × AcceptedAs (judged_as (other (kind_if gapped)) task.now) task.now old words.now header.variables header.features header.operators header.next }
    ensures { Converts (kind_if gapped) task.now room.old (outcome_of result room.new) }
{
    let v = header.variables;
    let n = header.features;
    writer::write_task(
        &task[header.next..],
        header.operators,
        gapped,
        layout::sizes(words, v),
        layout::start(words, v, n),
        layout::goal(words, v, n),
        layout::pairs(words, v, n),
        room,
    )
}

// Converts a task file into one of a kind; a file of the other kind is due.
fn convert(task: &[u8], gapped: bool, room: &mut [u8]) -> Result<usize, Reason>
    ensures { Converts (kind_if gapped) task.now room.old (outcome_of result room.new) }
{
    let mut words = [0u64; HEADER_WORDS];
    let header = task::judge_as(task, !gapped, &mut words)?;
    convert_in(task, &words, header, gapped, room)
}

// Converts a task file of the old kind into the new one.
pub fn to_new(task: &[u8], room: &mut [u8]) -> Result<usize, Reason>
    ensures { ConvertsToNew task.now room.old (outcome_of result room.new) }
{
    convert(task, true, room)
}

// Converts a task file of the new kind into the old one.
pub fn to_old(task: &[u8], room: &mut [u8]) -> Result<usize, Reason>
    ensures { ConvertsToOld task.now room.old (outcome_of result room.new) }
{
    convert(task, false, room)
}

// Reads weights of the other kind, over n features, into words that hold none yet, and writes their file of a kind.
fn convert_list(
    weights: &[u8],
    gapped: bool,
    n: usize,
    words: &mut [u64],
    room: &mut [u8],
) -> Result<usize, Reason>
    requires { (n ≤ most_features) × (words.old ≡ replicate (words_for n) 0) }
    ensures { WeightsBy (kind_if gapped) n weights.now room.old (outcome_of result room.new) }
{
    reader::read_weights(weights, !gapped, n, &mut *words)?;
    writer::deliver_set(words, gapped, room)
}

// Converts a weight file into one of a kind, beside its task; a file of the other kind is due.
fn convert_weights(
    task: &[u8],
    weights: &[u8],
    gapped: bool,
    room: &mut [u8],
) -> Result<usize, Reason>
    ensures { ConvertsWeights (kind_if gapped) task.now weights.now room.old (outcome_of result room.new) }
{
    let mut header_words = [0u64; HEADER_WORDS];
    let header = task::judge(task, &mut header_words)?;
    let mut words = [0u64; MOST_WORDS];
    let w = layout::words_for(header.features);
    convert_list(weights, gapped, header.features, &mut words[..w], room)
}

// Converts a weight file of the old kind into the new one, beside a task of either kind.
pub fn weights_to_new(task: &[u8], weights: &[u8], room: &mut [u8]) -> Result<usize, Reason>
    ensures { ConvertsWeightsToNew task.now weights.now room.old (outcome_of result room.new) }
{
    convert_weights(task, weights, true, room)
}

// Converts a weight file of the new kind into the old one, beside a task of either kind.
pub fn weights_to_old(task: &[u8], weights: &[u8], room: &mut [u8]) -> Result<usize, Reason>
    ensures { ConvertsWeightsToOld task.now weights.now room.old (outcome_of result room.new) }
{
    convert_weights(task, weights, false, room)
}
