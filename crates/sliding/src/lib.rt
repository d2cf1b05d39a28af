// The core of a builder: the task of slots between which pallets slide, from lent tables: which slots are neighbours, and the labels of the start and of the goal.

#![tactic(auto)]

ghost use Rattle.std.specs.Prelude.{◌≡◌, ◌++◌, ◌+◌, ◌*◌, ◌<◌, ◌≤◌, length, take, drop};
ghost use Rattle.meaning.specs.Limits.{most_slots, word_bits};
ghost use Rattle.meaning.specs.Task.{State};
ghost use Rattle.meaning.specs.Feature.{features};
ghost use Rattle.meaning.specs.File.{operator_bytes, counted, task_bytes};
ghost use Rattle.meaning.specs.Bay.{occurrences, once_in, equal_lots, bay_sizes, bay_pairs, slide};
ghost use Rattle.meaning.specs.Answer.{delivered};
ghost use Rattle.words.specs.Toggled.{toggled_all};
ghost use Rattle.writer.specs.Answer.{outcome_of};
ghost use Rattle.sliding.specs.Parts.{Slots, Uniform, TaskParts, operators_in, task_in, built_in, label_pair, label_pairs, slot_pairs};
ghost use Rattle.sliding.specs.Parts.{places_in, lots_in, lot_bytes, slide_bytes, gap_bytes, walk_bytes};

use limits::{MOST_SLOTS, MOST_WORDS};
use meaning::Entry;
use number::Reason;

// How often a label stands in a list.
fn occurrences(label: usize, labels: &[u64]) -> usize
    ensures { result ≡ occurrences label labels.now }
{
    labels
        .iter()
        .map(|other| (*other as usize == label) as usize)
        .sum()
}

// Two lists hold each label, of as many as the first has slots, equally often.
fn are_equal(start: &[u64], goal: &[u64]) -> bool
    ensures { result ≡ equal_lots (length start.now) start.now goal.now }
{
    (0..start.len()).all(|label| occurrences(label, start) == occurrences(label, goal))
}

// Marks in words, by a toggle, the feature that puts a label in the slots i < j, if the label occurs once.
fn mark_label(pairs: &mut [u64], sizes: &[u64], start: &[u64], i: usize, j: usize, label: usize)
    requires { Uniform sizes.now × (i < j) × (j < length sizes.now) × (label < length sizes.now) × (features sizes.now ≤ word_bits * length pairs.old) }
    ensures { pairs.new ≡ toggled_all pairs.old (label_pair (length sizes.now) start.now i j label) }
{
    if occurrences(label, start) != 1 {
        return;
    }
    words::toggle(pairs, numbering::both(sizes, i, label, j, label));
}

// Marks those of all labels.
fn mark_labels(pairs: &mut [u64], sizes: &[u64], start: &[u64], i: usize, j: usize)
    requires { Uniform sizes.now × (j < length sizes.now) × (features sizes.now ≤ word_bits * length pairs.old) }
    ensures { pairs.new ≡ toggled_all pairs.old (label_pairs (length sizes.now) start.now i j) }
{
    if j <= i {
        return;
    }
    for label in 0..sizes.len() {
        mark_label(pairs, sizes, start, i, j, label);
    }
}

// Marks those with slot i as the first.
fn mark_slots(pairs: &mut [u64], sizes: &[u64], start: &[u64], i: usize)
    requires { Uniform sizes.now × (features sizes.now ≤ word_bits * length pairs.old) }
    ensures { pairs.new ≡ toggled_all pairs.old (slot_pairs (length sizes.now) start.now i) }
{
    for j in 0..sizes.len() {
        mark_labels(pairs, sizes, start, i, j);
    }
}

// Marks all features that put one label in two slots, of the labels that occur once.
fn mark_pairs(pairs: &mut [u64], sizes: &[u64], start: &[u64])
    requires { Uniform sizes.now × (features sizes.now ≤ word_bits * length pairs.old) }
    ensures { pairs.new ≡ toggled_all pairs.old (bay_pairs (length sizes.now) (once_in start.now)) }
{
    for i in 0..sizes.len() {
        mark_slots(pairs, sizes, start, i);
    }
}

// The operator that slides the pallet t from q into the gap at p: p goes from 0 to t, q from t to 0, entries by slot number.
fn slide(p: usize, q: usize, t: usize) -> [Entry; 2]
    ensures { result ≡ slide p q t }
{
    let gap = Entry {
        variable: p,
        before: 0,
        after: t,
    };
    let pallet = Entry {
        variable: q,
        before: t,
        after: 0,
    };
    if p < q {
        return [gap, pallet];
    }
    [pallet, gap]
}

// Writes the operator that slides the pallet t from q into the gap at p, if the label occurs.
fn write_lot(room: &mut [u8], at: usize, start: &[u64], p: usize, q: usize, t: usize) -> usize
    requires { (p < most_slots) × (q < most_slots) × (t < most_slots) × (at + length (lot_bytes start.now p q t) ≤ length room.old) }
    ensures after { result ≡ at + length (lot_bytes start.now p q t) }
    ensures written { room.new ≡ take at room.old ++ (lot_bytes start.now p q t ++ drop result room.old) }
{
    if occurrences(t, start) == 0 {
        return at;
    }
    writer::write_operator(room, at, &slide(p, q, t))
}

// Writes the operators that slide a pallet from q into the gap at p, for each label from 1 that occurs, if the two are neighbours.
fn write_slides(room: &mut [u8], at: usize, near: &[u8], start: &[u64], p: usize, q: usize) -> usize
    requires { Slots near.now start.now × (p < length start.now) × (q < length start.now) × (at + length (slide_bytes near.now start.now p q) ≤ length room.old) }
    ensures after { result ≡ at + length (slide_bytes near.now start.now p q) }
    ensures written { room.new ≡ take at room.old ++ (slide_bytes near.now start.now p q ++ drop result room.old) }
{
    let n = start.len();
    if near[p * n + q] != 1 {
        return at;
    }
    let mut next = at;
    for label in 1..n {
        next = write_lot(room, next, start, p, q, label);
    }
    next
}

// Writes the operators with the gap at p, neighbours in increasing order.
fn write_gap(room: &mut [u8], at: usize, near: &[u8], start: &[u64], p: usize) -> usize
    requires { Slots near.now start.now × (p < length start.now) × (at + length (gap_bytes near.now start.now p) ≤ length room.old) }
    ensures after { result ≡ at + length (gap_bytes near.now start.now p) }
    ensures written { room.new ≡ take at room.old ++ (gap_bytes near.now start.now p ++ drop result room.old) }
{
    let mut next = at;
    for q in 0..start.len() {
        next = write_slides(room, next, near, start, p, q);
    }
    next
}

// Writes all operators.
fn write_walk(room: &mut [u8], at: usize, near: &[u8], start: &[u64]) -> usize
    requires { Slots near.now start.now × (at + length (walk_bytes near.now start.now) ≤ length room.old) }
    ensures after { result ≡ at + length (walk_bytes near.now start.now) }
    ensures written { room.new ≡ take at room.old ++ (walk_bytes near.now start.now ++ drop result room.old) }
{
    let mut next = at;
    for p in 0..start.len() {
        next = write_gap(room, next, near, start, p);
    }
    next
}

// How many places of a table say that a pallet may slide.
fn count_places(near: &[u8]) -> usize
    ensures { result ≡ places_in near.now }
{
    near.iter().map(|mark| (*mark == 1) as usize).sum()
}

// How many labels from 1 on occur.
fn count_lots(start: &[u64]) -> usize
    ensures { result ≡ lots_in start.now }
{
    (1..start.len())
        .filter(|label| occurrences(*label, start) != 0)
        .count()
}

// How many operators there are: one for each place and each label that slides.
fn count_operators(near: &[u8], start: &[u64]) -> usize
    requires { Slots near.now start.now }
    ensures { result ≡ length (operators_in near.now start.now) }
{
    count_places(near) * count_lots(start)
}

// Writes the operators with their count.
fn write_operators(room: &mut [u8], at: usize, near: &[u8], start: &[u64]) -> usize
    requires { Slots near.now start.now × (at + length (counted operator_bytes (operators_in near.now start.now)) ≤ length room.old) }
    ensures after { result ≡ at + length (counted operator_bytes (operators_in near.now start.now)) }
    ensures written { room.new ≡ take at room.old ++ (counted operator_bytes (operators_in near.now start.now) ++ drop result room.old) }
{
    let next = number::write_number(room, at, count_operators(near, start));
    write_walk(room, next, near, start)
}

// How many bytes the operators have, with their count: each number of an operator is below 128, so all operators are as long as one.
fn operators_width(near: &[u8], start: &[u64]) -> usize
    requires { Slots near.now start.now }
    ensures { result ≡ length (counted operator_bytes (operators_in near.now start.now)) }
{
    let count = count_operators(near, start);
    let each = writer::operator_width(&slide(0, 1, 1));
    number::width(count) + each * count
}

// Writes the task file from its parts, if the room is long enough for all of it.
fn write_task(
    near: &[u8],
    sizes: &[u64],
    start: &[u64],
    goal: &[u64],
    pairs: &[u64],
    room: &mut [u8],
) -> Result<usize, Reason>
    requires { TaskParts near.now sizes.now start.now goal.now pairs.now }
    ensures { outcome_of result room.new ≡ delivered (task_bytes (task_in near.now start.now goal.now)) room.old }
{
    let front = writer::front_width(false, sizes, start, goal, pairs);
    if room.len() < front + operators_width(near, start) {
        return Err(Reason::Small);
    }
    let next = writer::write_front(room, false, sizes, start, goal, pairs);
    Ok(write_operators(room, next, near, start))
}

// Writes the task file of slots whose labels were accepted.
fn deliver(near: &[u8], start: &[u64], goal: &[u64], room: &mut [u8]) -> Result<usize, Reason>
    requires { Slots near.now start.now × State (bay_sizes (length start.now)) goal.now }
    ensures { outcome_of result room.new ≡ delivered (task_bytes (task_in near.now start.now goal.now)) room.old }
{
    let n = start.len();
    let sizes = [n as u64; MOST_SLOTS];
    let mut pairs = [0u64; MOST_WORDS];
    mark_pairs(&mut pairs, &sizes[..n], start);
    write_task(near, &sizes[..n], start, goal, &pairs, room)
}

// Judges the labels, the gap of the start first, and writes the task file.
pub fn build(near: &[u8], start: &[u64], goal: &[u64], room: &mut [u8]) -> Result<usize, Reason>
    requires { Slots near.now start.now × State (bay_sizes (length start.now)) goal.now }
    ensures { outcome_of result room.new ≡ built_in near.now start.now goal.now room.old }
{
    if occurrences(0, start) != 1 {
        return Err(Reason::Gaps);
    }
    if occurrences(0, goal) != 1 {
        return Err(Reason::Gaps);
    }
    if !are_equal(start, goal) {
        return Err(Reason::Unequal);
    }
    deliver(near, start, goal, room)
}
