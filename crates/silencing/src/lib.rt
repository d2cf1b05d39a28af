// Makes the partial file of a task and marks: the goal values of the variables that are marked 1 are named, the others are silent.

#![tactic(auto)]

ghost use Rattle.std.specs.Prelude.{◌≡◌, List, ◌++◌, ℕ, ◌+◌, ◌<◌, ◌≤◌, length, take, drop};
ghost use Rattle.meaning.specs.Limits.{number_end};
ghost use Rattle.meaning.specs.Answer.{delivered};
ghost use Rattle.meaning.specs.Partial.{Silences};
ghost use Rattle.writer.specs.Answer.{outcome_of};
ghost use Rattle.writer.specs.Parts.{FewWords};
ghost use Rattle.silencing.specs.Marks.{are_marks, are_roomy, Marked, picked};
ghost use Rattle.silencing.specs.Parts.{PartialFront, rest_bytes, parts_bytes};
ghost use Rattle.silencing.specs.Answer.{Parted, Silent};

use limits::{HEADER_WORDS, MOST_FEATURES, MOST_PARTIAL_SIZE, MOST_VARIABLES};
use number::Reason;

// Whether each mark is 0 or 1.
fn are_marks(marks: &[u8]) -> bool
    ensures { result ≡ are_marks marks.now }
{
    marks.iter().all(|mark| *mark <= 1)
}

// Whether each size has room for "unknown".
fn are_roomy(sizes: &[u64]) -> bool
    ensures { result ≡ are_roomy sizes.now }
{
    sizes.iter().all(|size| *size as usize <= MOST_PARTIAL_SIZE)
}

// Puts the goal values that are named in front of a table, and answers how many they are. Each value is put behind them, and stays where its mark counts it.
fn fill_named(goal: &[u64], marks: &[u8], named: &mut [u64]) -> usize
    requires { Marked (length goal.now) marks.now × (length marks.now ≤ length named.old) }
    ensures { (result ≤ length marks.now) × (take result named.new ≡ picked marks.now goal.now) }
{
    let mut count = 0;
    for (value, mark) in goal.iter().zip(marks) {
        named[count] = *value;
        count += *mark as usize;
    }
    count
}

// How many bytes stand behind the goal of a partial file: the pairs, the count of operators, and the operators.
fn rest_width(pairs: &[u64], count: usize, own: &[u8]) -> usize
    requires { FewWords pairs.now × (count < number_end) }
    ensures { result ≡ length (rest_bytes pairs.now count own.now) }
{
    writer::set_width(false, pairs) + number::width(count) + own.len()
}

// Writes what stands behind the goal from a place on, and answers the place after it.
fn write_rest(room: &mut [u8], at: usize, pairs: &[u64], count: usize, own: &[u8]) -> usize
    requires { FewWords pairs.now × (count < number_end) × (at + length (rest_bytes pairs.now count own.now) ≤ length room.old) }
    ensures after { result ≡ at + length (rest_bytes pairs.now count own.now) }
    ensures written { room.new ≡ take at room.old ++ (rest_bytes pairs.now count own.now ++ drop result room.old) }
{
    let second = writer::write_set(room, at, false, pairs);
    let third = number::write_number(room, second, count);
    writer::write_bytes(room, third, own)
}

// Writes a partial file from its parts, if the room is long enough for all of it.
fn write_partial(
    sizes: &[u64],
    marks: &[u8],
    start: &[u64],
    named: &[u64],
    pairs: &[u64],
    count: usize,
    own: &[u8],
    room: &mut [u8],
) -> Result<usize, Reason>
    requires { PartialFront sizes.now marks.now start.now named.now × FewWords pairs.now × (count < number_end) }
    ensures { outcome_of result room.new
        ≡ delivered (parts_bytes sizes.now marks.now start.now named.now (rest_bytes pairs.now count own.now)) room.old }
{
    let front = writer::list_width(sizes)
        + marks.len()
        + writer::numbers_width(start)
        + writer::numbers_width(named);
    if room.len() < front + rest_width(pairs, count, own) {
        return Err(Reason::Small);
    }
    let second = writer::write_list(room, 0, sizes);
    let third = writer::write_bytes(room, second, marks);
    let fourth = writer::write_numbers(room, third, start);
    let fifth = writer::write_numbers(room, fourth, named);
    Ok(write_rest(room, fifth, pairs, count, own))
}

// Writes the partial file of a task and marks that were judged: so many operators as they stand in the task's file.
fn deliver(
    own: &[u8],
    count: usize,
    sizes: &[u64],
    start: &[u64],
    goal: &[u64],
    pairs: &[u64],
    marks: &[u8],
    room: &mut [u8],
) -> Result<usize, Reason>
    requires { Silent sizes.now start.now goal.now marks.now × FewWords pairs.now × (count < number_end) }
    ensures { outcome_of result room.new
        ≡ delivered (parts_bytes sizes.now marks.now start.now (picked marks.now goal.now)
        (rest_bytes pairs.now count own.now)) room.old }
{
    let mut named = [0u64; MOST_VARIABLES];
    let many = fill_named(goal, marks, &mut named);
    write_partial(sizes, marks, start, &named[..many], pairs, count, own, room)
}

// Judges the marks for an accepted task, then its sizes with "unknown", and writes the file.
fn silence_judged(
    own: &[u8],
    count: usize,
    sizes: &[u64],
    start: &[u64],
    goal: &[u64],
    pairs: &[u64],
    marks: &[u8],
    room: &mut [u8],
) -> Result<usize, Reason>
    requires { (task : List ℕ) × Parted task own.now count sizes.now start.now goal.now pairs.now }
    ensures { (task : List ℕ) → Parted task own.now count sizes.now start.now goal.now pairs.now
        → Silences task marks.now room.old (outcome_of result room.new) }
{
    if marks.len() != sizes.len() {
        return Err(Reason::Range);
    }
    if !are_marks(marks) {
        return Err(Reason::Range);
    }
    if !are_roomy(sizes) {
        return Err(Reason::Outgrown);
    }
    if MOST_FEATURES < partial::built_features(sizes) {
        return Err(Reason::Outgrown);
    }
    deliver(own, count, sizes, start, goal, pairs, marks, room)
}

// Makes the partial file that names of a task's goal what the marks say.
pub fn silence(task: &[u8], marks: &[u8], room: &mut [u8]) -> Result<usize, Reason>
    ensures { Silences task.now marks.now room.old (outcome_of result room.new) }
{
    let mut words = [0u64; HEADER_WORDS];
    let header = task::judge(task, &mut words)?;
    let v = header.variables;
    let n = header.features;
    silence_judged(
        &task[header.next..],
        header.operators,
        layout::sizes(&words, v),
        layout::start(&words, v, n),
        layout::goal(&words, v, n),
        layout::pairs(&words, v, n),
        marks,
        room,
    )
}
