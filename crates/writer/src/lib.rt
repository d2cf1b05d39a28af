// The parts of task files, written into lent bytes: how many bytes a part has, and the part written at a place; what stands before the operators, as a whole;
// and whole weight files, of a list of features or of a set in words.

#![tactic(auto)]

ghost use Rattle.std.specs.Prelude.{◌≡◌, ◌++◌, ◌+◌, ◌<◌, ◌≤◌, length, take, drop};
ghost use Rattle.meaning.specs.Limits.{number_end};
ghost use Rattle.meaning.specs.Number.{number_bytes};
ghost use Rattle.meaning.specs.File.{kind_if, bytes_of, counted, entry_bytes, operator_bytes, numbers_for, list_bytes, mark_bytes, weight_bytes_as};
ghost use Rattle.meaning.specs.Answer.{delivered};
ghost use Rattle.theory.specs.ReadBack.{said_as};
ghost use Rattle.words.specs.Members.{members_in};
ghost use Rattle.writer.specs.Answer.{outcome_of};
ghost use Rattle.writer.specs.Parts.{Numbers, Countable, Numbered, Triples, FewWords};
ghost use Rattle.writer.specs.Front.{Front, front_bytes};
ghost use Rattle.writer.specs.TaskFile.{file_bytes};
ghost use Rattle.writer.specs.Weights.{judged_of, weights_judged, weights_written};

use limits::{MOST_FEATURES, MOST_WORDS};
use meaning::Entry;
use number::Reason;
use words::WORD_BITS;

// How many bytes a list of numbers has, without its count.
pub fn numbers_width(values: &[u64]) -> usize
    requires { Numbers values.now }
    ensures { result ≡ length (bytes_of number_bytes values.now) }
{
    values
        .iter()
        .map(|value| number::width(*value as usize))
        .sum()
}

// How many bytes a list of numbers has, with its count.
pub fn list_width(values: &[u64]) -> usize
    requires { Countable values.now }
    ensures { result ≡ length (counted number_bytes values.now) }
{
    number::width(values.len()) + numbers_width(values)
}

// How many bytes an entry has.
fn entry_width(entry: Entry) -> usize
    requires { Numbered entry }
    ensures { result ≡ length (entry_bytes entry) }
{
    number::width(entry.variable) + number::width(entry.before) + number::width(entry.after)
}

// How many bytes an operator has.
pub fn operator_width(entries: &[Entry]) -> usize
    requires { Triples entries.now }
    ensures { result ≡ length (operator_bytes entries.now) }
{
    let width: usize = entries.iter().map(|entry| entry_width(*entry)).sum();
    number::width(entries.len()) + width
}

// Writes bytes from a place on, and answers the place after them. A loop, as the library's method would have whoever links the archive bring memmove.
pub fn write_bytes(room: &mut [u8], at: usize, bytes: &[u8]) -> usize
    requires { at + length bytes.now ≤ length room.old }
    ensures after { result ≡ at + length bytes.now }
    ensures written { room.new ≡ take at room.old ++ (bytes.now ++ drop result room.old) }
{
    for (i, byte) in bytes.iter().enumerate() {
        room[at + i] = *byte;
    }
    at + bytes.len()
}

// Writes a list of numbers from a place on, without its count, and answers the place after it.
pub fn write_numbers(room: &mut [u8], at: usize, values: &[u64]) -> usize
    requires { Numbers values.now × (at + length (bytes_of number_bytes values.now) ≤ length room.old) }
    ensures after { result ≡ at + length (bytes_of number_bytes values.now) }
    ensures written { room.new ≡ take at room.old ++ (bytes_of number_bytes values.now ++ drop result room.old) }
{
    let mut next = at;
    for value in values {
        next = number::write_number(room, next, *value as usize);
    }
    next
}

// Writes a list of numbers with its count from a place on, and answers the place after it.
pub fn write_list(room: &mut [u8], at: usize, values: &[u64]) -> usize
    requires { Countable values.now × (at + length (counted number_bytes values.now) ≤ length room.old) }
    ensures after { result ≡ at + length (counted number_bytes values.now) }
    ensures written { room.new ≡ take at room.old ++ (counted number_bytes values.now ++ drop result room.old) }
{
    let next = number::write_number(room, at, values.len());
    write_numbers(room, next, values)
}

// Writes an entry from a place on, and answers the place after it.
fn write_entry(room: &mut [u8], at: usize, entry: Entry) -> usize
    requires { Numbered entry × (at + length (entry_bytes entry) ≤ length room.old) }
    ensures after { result ≡ at + length (entry_bytes entry) }
    ensures written { room.new ≡ take at room.old ++ (entry_bytes entry ++ drop result room.old) }
{
    let second = number::write_number(room, at, entry.variable);
    let third = number::write_number(room, second, entry.before);
    number::write_number(room, third, entry.after)
}

// Writes an operator from a place on, and answers the place after it.
pub fn write_operator(room: &mut [u8], at: usize, entries: &[Entry]) -> usize
    requires { Triples entries.now × (at + length (operator_bytes entries.now) ≤ length room.old) }
    ensures after { result ≡ at + length (operator_bytes entries.now) }
    ensures written { room.new ≡ take at room.old ++ (operator_bytes entries.now ++ drop result room.old) }
{
    let mut next = number::write_number(room, at, entries.len());
    for entry in entries {
        next = write_entry(room, next, *entry);
    }
    next
}

// The number that stands for a feature that is `least` or more, in a file of a kind.
fn number_for(gapped: bool, feature: usize, least: usize) -> usize
    requires { least ≤ feature }
    ensures { result ≡ said_as (kind_if gapped) least feature }
{
    if gapped {
        return feature - least;
    }
    feature
}

// How many bytes the members of a set have in a file of a kind, without their count.
fn members_width(gapped: bool, words: &[u64]) -> usize
    requires { FewWords words.now }
    ensures { result ≡ length (bytes_of number_bytes (numbers_for (kind_if gapped) 0 (members_in words.now))) }
{
    let mut sum = 0;
    let mut least = 0;
    // A `while`: where the next member stands is known only from the last one, so a `for` would need an iterator of its own, and be no plainer.
    let mut f = words::next_member(words, 0);
    while f < words.len() * WORD_BITS {
        sum += number::width(number_for(gapped, f, least));
        least = f + 1;
        f = words::next_member(words, least);
    }
    sum
}

// Writes the members of a set from a place on, increasing, without their count, and answers the place after them.
fn write_members(room: &mut [u8], at: usize, gapped: bool, words: &[u64]) -> usize
    requires { FewWords words.now × (at + length (bytes_of number_bytes (numbers_for (kind_if gapped) 0 (members_in words.now))) ≤ length room.old) }
    ensures after { result ≡ at + length (bytes_of number_bytes (numbers_for (kind_if gapped) 0 (members_in words.now))) }
    ensures written { room.new
        ≡ take at room.old ++ (bytes_of number_bytes (numbers_for (kind_if gapped) 0 (members_in words.now)) ++ drop result room.old) }
{
    let mut next = at;
    let mut least = 0;
    // A `while`: where the next member stands is known only from the last one, so a `for` would need an iterator of its own, and be no plainer.
    let mut f = words::next_member(words, 0);
    while f < words.len() * WORD_BITS {
        next = number::write_number(room, next, number_for(gapped, f, least));
        least = f + 1;
        f = words::next_member(words, least);
    }
    next
}

// How many bytes a set of features has in a file of a kind: its count and its members.
pub fn set_width(gapped: bool, words: &[u64]) -> usize
    requires { FewWords words.now }
    ensures { result ≡ length (list_bytes (kind_if gapped) (members_in words.now)) }
{
    number::width(words::count(words)) + members_width(gapped, words)
}

// Writes a set of features from a place on, its count and its members, and answers the place after it.
pub fn write_set(room: &mut [u8], at: usize, gapped: bool, words: &[u64]) -> usize
    requires { FewWords words.now × (at + length (list_bytes (kind_if gapped) (members_in words.now)) ≤ length room.old) }
    ensures after { result ≡ at + length (list_bytes (kind_if gapped) (members_in words.now)) }
    ensures written { room.new ≡ take at room.old ++ (list_bytes (kind_if gapped) (members_in words.now) ++ drop result room.old) }
{
    let next = number::write_number(room, at, words::count(words));
    write_members(room, next, gapped, words)
}

// How many bytes the mark of a kind has.
fn mark_width(gapped: bool) -> usize
    ensures { result ≡ length (mark_bytes (kind_if gapped)) }
{
    if gapped {
        return number::width(0);
    }
    0
}

// Writes the mark of a kind at the front, and answers the place after it.
fn write_mark(room: &mut [u8], gapped: bool) -> usize
    requires { length (mark_bytes (kind_if gapped)) ≤ length room.old }
    ensures after { result ≡ length (mark_bytes (kind_if gapped)) }
    ensures written { room.new ≡ mark_bytes (kind_if gapped) ++ drop result room.old }
{
    if gapped {
        return number::write_number(room, 0, 0);
    }
    0
}

// How many bytes stand before the operators of a task file: the mark of its kind, the sizes with their count, start, goal, and the set of its pairs.
pub fn front_width(gapped: bool, sizes: &[u64], start: &[u64], goal: &[u64], pairs: &[u64]) -> usize
    requires { Front sizes.now start.now goal.now pairs.now }
    ensures { result ≡ length (front_bytes (kind_if gapped) sizes.now start.now goal.now (members_in pairs.now)) }
{
    mark_width(gapped)
        + list_width(sizes)
        + numbers_width(start)
        + numbers_width(goal)
        + set_width(gapped, pairs)
}

// Writes what stands before the operators of a task file, and answers the place after it.
pub fn write_front(
    room: &mut [u8],
    gapped: bool,
    sizes: &[u64],
    start: &[u64],
    goal: &[u64],
    pairs: &[u64],
) -> usize
    requires { Front sizes.now start.now goal.now pairs.now
        × (length (front_bytes (kind_if gapped) sizes.now start.now goal.now (members_in pairs.now)) ≤ length room.old) }
    ensures after { result ≡ length (front_bytes (kind_if gapped) sizes.now start.now goal.now (members_in pairs.now)) }
    ensures written { room.new
        ≡ front_bytes (kind_if gapped) sizes.now start.now goal.now (members_in pairs.now) ++ drop result room.old }
{
    let first = write_mark(room, gapped);
    let second = write_list(room, first, sizes);
    let third = write_numbers(room, second, start);
    let fourth = write_numbers(room, third, goal);
    write_set(room, fourth, gapped, pairs)
}

// Writes a task file from its parts, if the room is long enough for all of it: so many operators as they stand in another file.
pub fn write_task(
    own: &[u8],
    count: usize,
    gapped: bool,
    sizes: &[u64],
    start: &[u64],
    goal: &[u64],
    pairs: &[u64],
    room: &mut [u8],
) -> Result<usize, Reason>
    requires { Front sizes.now start.now goal.now pairs.now × (count < number_end) }
    ensures { outcome_of result room.new
        ≡ delivered (file_bytes (kind_if gapped) count own.now sizes.now start.now goal.now pairs.now) room.old }
{
    let front = front_width(gapped, sizes, start, goal, pairs);
    let operators = number::width(count) + own.len();
    if room.len() < front + operators {
        return Err(Reason::Small);
    }
    let second = write_front(room, gapped, sizes, start, goal, pairs);
    let third = number::write_number(room, second, count);
    Ok(write_bytes(room, third, own))
}

// Judges a list of features in list order: each feature's range, then its order.
fn judge(weights: &[u64]) -> Result<(), Reason>
    ensures { judged_of result ≡ weights_judged 0 weights.now }
{
    let mut least = 0;
    for weight in weights {
        let feature = *weight as usize;
        if MOST_FEATURES <= feature {
            return Err(Reason::Range);
        }
        if feature < least {
            return Err(Reason::Unordered);
        }
        least = feature + 1;
    }
    Ok(())
}

// Writes a weight file: features that are in range and increase, and that have room.
pub fn write_weights(weights: &[u64], room: &mut [u8]) -> Result<usize, Reason>
    ensures { outcome_of result room.new ≡ weights_written weights.now room.old }
{
    judge(weights)?;
    if room.len() < list_width(weights) {
        return Err(Reason::Small);
    }
    Ok(write_list(room, 0, weights))
}

// Writes the weight file of a kind of a set whose words are few enough that each feature is in range, if it has room.
pub fn deliver_set(words: &[u64], gapped: bool, room: &mut [u8]) -> Result<usize, Reason>
    requires { FewWords words.now }
    ensures { outcome_of result room.new ≡ delivered (weight_bytes_as (kind_if gapped) (members_in words.now)) room.old }
{
    if room.len() < mark_width(gapped) + set_width(gapped, words) {
        return Err(Reason::Small);
    }
    let next = write_mark(room, gapped);
    Ok(write_set(room, next, gapped, words))
}

// Writes the weight file of a set of features in words, as the finder leaves them. Any words are taken.
pub fn weight_file(words: &[u64], room: &mut [u8]) -> Result<usize, Reason>
    ensures { outcome_of result room.new ≡ weights_written (members_in words.now) room.old }
{
    if words.len() <= MOST_WORDS {
        return deliver_set(words, false, room);
    }
    if !words::is_empty(&words[MOST_WORDS..]) {
        return Err(Reason::Range);
    }
    deliver_set(&words[..MOST_WORDS], false, room)
}
