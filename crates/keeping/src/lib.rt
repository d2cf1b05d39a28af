// Keeps the largest good sublist of a task's pairs in words: what is in no good sublist is taken out, operator after operator, until nothing is; and finds what keeps a list
// from being good.

#![tactic(auto)]

ghost use Rattle.std.specs.Prelude.{◌≡◌, ◌&&◌, ℕ, ◌*◌, ◌≤◌, length, replicate};
ghost use Rattle.meaning.specs.Limits.{word_bits, most_variables};
ghost use Rattle.meaning.specs.Task.{Task, State};
ghost use Rattle.meaning.specs.Feature.{atoms, features};
ghost use Rattle.meaning.specs.Pair.{held_pair};
ghost use Rattle.meaning.specs.File.{InLimits};
ghost use Rattle.meaning.specs.Answer.{operator_in};
ghost use Rattle.meaning.specs.Workspace.{has};
ghost use Rattle.meaning.specs.Mend.{Largest};
ghost use Rattle.theory.specs.Given.{Given};
ghost use Rattle.theory.specs.Mending.{touched_in, ReadAs};
ghost use Rattle.numbering.specs.Order.{Contains};
ghost use Rattle.words.specs.Members.{members_in};
ghost use Rattle.operator.specs.Records.{record_of};
ghost use Rattle.pairs.specs.Ready.{Listed, Ready, HoldsPossible};
ghost use Rattle.keeping.specs.Standing.{standing};
ghost use Rattle.keeping.specs.Marks.{Touched, Marked};
ghost use Rattle.keeping.specs.Turn.{LeftBy, TurnBy};
ghost use Rattle.keeping.specs.Pass.{TurnIf, OperatorsAt, PassTo, Settles};
ghost use Rattle.keeping.specs.Keep.{HeldOut};
ghost use Rattle.keeping.specs.Fault.{FirstIn, BrokenBy, FirstBroken, FaultIs};

use limits::{ATOM_WORDS, MOST_ENTRIES, MOST_WORDS};
use operator::{Entries, Operator};
use pairs::{PairAt, Tabled};

// An operator under which a list is not closed, by its number, and its least unclosed pair.
#[derive(Clone, Copy)]
struct Broken {
    operator: usize,
    pair: usize,
}

// What keeps a list from being good: the least pair that the start holds; or the least unclosed pair of the first operator, and that operator's number.
#[derive(Clone, Copy)]
pub enum Fault {
    Held(usize),
    Unclosed(usize, usize),
}

// A state as the operator that leaves each of its values: what is unclosed under it is what the state holds.
fn standing(state: &[u64]) -> Operator
    requires { length state.now ≤ most_variables }
    ensures { (result.count ≤ most_variables) × (operator_in (record_of result) ≡ standing state.now) }
{
    let mut variables = [0usize; MOST_ENTRIES];
    let mut values = [0usize; MOST_ENTRIES];
    for (i, value) in state.iter().enumerate() {
        variables[i] = i;
        values[i] = *value as usize;
    }
    Operator {
        count: state.len(),
        variables,
        befores: values,
        afters: values,
    }
}

// Whether a pair of a set's atoms may matter to the operator: two of its before atoms, or one of them and an atom of a variable that it doesn't name.
fn is_touched(sizes: &[u64], entries: &Entries, touched: &[u64]) -> bool
    requires { Given sizes.now entries.now × (atoms sizes.now ≤ word_bits * length touched.now) }
    ensures { result ≡ touched_in sizes.now (has touched.now) entries.now }
{
    let mut met = false;
    for k in 0..entries.len() {
        let entry = entries.at(k);
        if words::has(
            touched,
            numbering::single(sizes, entry.variable, entry.before),
        ) {
            if met {
                return true;
            }
            met = true;
        }
    }
    met && pairs::has_unnamed(sizes, entries.variables(), touched)
}

// Puts both atoms of a pair into a set of atoms.
fn touch(sizes: &[u64], pair: PairAt, touched: &mut [u64])
    requires { InLimits sizes.now × Contains sizes.now pair.block pair.feature × (atoms sizes.now ≤ word_bits * length touched.old) }
    ensures { Touched sizes.now pair.feature touched.old touched.new }
{
    let block = pair.block;
    let values = numbering::values_in(sizes, block, pair.feature);
    words::include(touched, numbering::single(sizes, block.first, values.first));
    words::include(
        touched,
        numbering::single(sizes, block.second, values.second),
    );
}

// Marks the listed pairs that are unclosed under the operator, and their atoms.
fn mark_unclosed(tabled: Tabled, gone: &mut [u64], touched: &mut [u64])
    requires { (gone.old ≡ replicate (length tabled.pairs.now) 0) × (atoms tabled.sizes.now ≤ word_bits * length touched.old) }
    ensures { Marked tabled.entry.sizes.now tabled.entry.pairs.now tabled.entry.entries.now touched.old gone.new touched.new }
{
    let end = numbering::features(tabled.sizes);
    let mut unclosed = tabled.first_unclosed(end);
    while let Some(pair) = unclosed {
        words::toggle(gone, pair.feature);
        touch(tabled.sizes, pair, touched);
        let next = pairs::next_pair(tabled.sizes, tabled.pairs, end, pair);
        unclosed = tabled.unclosed_from(end, next);
    }
}

// Takes out the listed pairs that are unclosed under the operator, judged by the list as it comes, and adds their atoms to those that are touched. Whether there was one.
fn drop_unclosed(
    sizes: &[u64],
    pairs: &mut [u64],
    entries: &Entries,
    possible: &[u64],
    touched: &mut [u64],
) -> bool
    requires { Ready sizes.now pairs.old entries.now × HoldsPossible sizes.now (has pairs.old) entries.now possible.now
        × (atoms sizes.now ≤ word_bits * length touched.old) }
    ensures { LeftBy sizes.now entries.now pairs.old touched.old pairs.new touched.new result }
{
    let mut marks = [0u64; MOST_WORDS];
    let gone = &mut marks[..pairs.len()];
    let tabled = Tabled {
        sizes,
        pairs,
        entries,
        possible,
    };
    mark_unclosed(tabled, gone, touched);
    if words::is_empty(gone) {
        return false;
    }
    words::add(pairs, gone);
    true
}

// Takes out what is unclosed under the operator, if it is not idle. Whether there was something.
fn drop_under(sizes: &[u64], pairs: &mut [u64], entries: &Entries, touched: &mut [u64]) -> bool
    requires { Ready sizes.now pairs.old entries.now × (atoms sizes.now ≤ word_bits * length touched.old) }
    ensures { TurnBy sizes.now entries.now pairs.old touched.old pairs.new touched.new result }
{
    let mut possible = [0u64; ATOM_WORDS];
    pairs::fill_possible(sizes, pairs, entries, &mut possible);
    // The entries are lent again, for as long as the pairs are, which change afterwards.
    let tabled = Tabled {
        sizes,
        pairs,
        entries: &*entries,
        possible: &possible,
    };
    if tabled.is_idle() {
        return false;
    }
    drop_unclosed(sizes, pairs, entries, &possible, touched)
}

// Takes out what is unclosed under an operator that has to be judged: all of them in the first pass, later those to which a pair of atoms may matter that were touched in the pass
// before, or in this one.
fn drop_if_due(
    sizes: &[u64],
    pairs: &mut [u64],
    entries: &Entries,
    all: bool,
    old: &[u64],
    touched: &mut [u64],
) -> bool
    requires { Ready sizes.now pairs.old entries.now × (atoms sizes.now ≤ word_bits * length old.now) × (length touched.old ≡ length old.now) }
    ensures { TurnIf sizes.now all old.now entries.now pairs.old touched.old pairs.new touched.new result }
{
    if !all && !is_touched(sizes, entries, old) && !is_touched(sizes, entries, touched) {
        return false;
    }
    drop_under(sizes, pairs, entries, touched)
}

// One pass: each operator in turn takes out what is unclosed under it, as far as they can be read. Whether there was something; the atoms of what went are left in words that
// came empty.
fn pass(
    bytes: &[u8],
    at: usize,
    count: usize,
    sizes: &[u64],
    pairs: &mut [u64],
    all: bool,
    old: &[u64],
    touched: &mut [u64],
) -> bool
    requires { Listed sizes.now pairs.old × (atoms sizes.now ≤ word_bits * length old.now) × (touched.old ≡ replicate (length old.now) 0) }
    ensures { PassTo sizes.now bytes.now at count all old.now pairs.old pairs.new touched.new result }
{
    let mut dropped = false;
    let mut next = at;
    for _ in 0..count {
        let Ok(read) = operator::read_operator(bytes, next, sizes) else {
            return dropped;
        };
        let entries = read.operator.entries();
        dropped |= drop_if_due(sizes, pairs, &entries, all, old, touched);
        next = read.next;
    }
    dropped
}

// Passes over the operators until one takes nothing out.
fn settle(bytes: &[u8], at: usize, count: usize, sizes: &[u64], pairs: &mut [u64])
    requires { Listed sizes.now pairs.old }
    ensures { Settles sizes.now bytes.now at count pairs.old pairs.new }
{
    let mut touched = [0u64; ATOM_WORDS];
    let mut first = true;
    loop {
        let mut fresh = [0u64; ATOM_WORDS];
        if !pass(bytes, at, count, sizes, pairs, first, &touched, &mut fresh) {
            return;
        }
        touched = fresh;
        first = false;
    }
}

// Takes out the pairs that a state holds.
fn drop_held(sizes: &[u64], state: &[u64], pairs: &mut [u64])
    requires { Listed sizes.now pairs.old × State sizes.now state.now }
    ensures { HeldOut sizes.now state.now pairs.old pairs.new }
{
    let operator = standing(state);
    let possible = [0u64; ATOM_WORDS];
    let mut touched = [0u64; ATOM_WORDS];
    drop_unclosed(sizes, pairs, &operator.entries(), &possible, &mut touched);
}

// Takes out of the listed pairs all that is in no good sublist.
pub fn keep_largest(
    bytes: &[u8],
    at: usize,
    count: usize,
    sizes: &[u64],
    start: &[u64],
    pairs: &mut [u64],
)
    requires { Listed sizes.now pairs.old × State sizes.now start.now }
    ensures { (T : Task) (end : ℕ) → ReadAs T bytes.now at count end sizes.now start.now (has pairs.old)
        → Largest T (members_in pairs.new) }
{
    drop_held(sizes, start, pairs);
    settle(bytes, at, count, sizes, pairs);
}

// The least listed pair that a state holds, where N is given.
fn first_held(sizes: &[u64], state: &[u64], pairs: &[u64], end: usize) -> Option<usize>
    requires { Listed sizes.now pairs.now × State sizes.now state.now × (end ≡ features sizes.now) }
    ensures { FirstIn (features sizes.now) (λ f. has pairs.now f && held_pair sizes.now state.now f) result }
{
    let operator = standing(state);
    let possible = [0u64; ATOM_WORDS];
    let tabled = Tabled {
        sizes,
        pairs,
        entries: &operator.entries(),
        possible: &possible,
    };
    let pair = tabled.first_unclosed(end)?;
    Some(pair.feature)
}

// The least listed pair that is unclosed under the operator, where N is given; none if the list is closed under it.
fn unclosed_under(sizes: &[u64], pairs: &[u64], entries: &Entries, end: usize) -> Option<usize>
    requires { Ready sizes.now pairs.now entries.now × (end ≡ features sizes.now) }
    ensures { BrokenBy sizes.now pairs.now entries.now result }
{
    let mut possible = [0u64; ATOM_WORDS];
    pairs::fill_possible(sizes, pairs, entries, &mut possible);
    let tabled = Tabled {
        sizes,
        pairs,
        entries,
        possible: &possible,
    };
    if tabled.is_idle() {
        return None;
    }
    let pair = tabled.first_unclosed(end)?;
    Some(pair.feature)
}

// The first operator under which the list is not closed, with its least unclosed pair, where N is given.
fn first_broken(
    bytes: &[u8],
    at: usize,
    count: usize,
    sizes: &[u64],
    pairs: &[u64],
    end: usize,
) -> Option<Broken>
    requires { Listed sizes.now pairs.now × (end ≡ features sizes.now) }
    ensures { (T : Task) → OperatorsAt T sizes.now bytes.now at count → FirstBroken T pairs.now result }
{
    let mut next = at;
    for k in 0..count {
        let Ok(read) = operator::read_operator(bytes, next, sizes) else {
            return None;
        };
        let entries = read.operator.entries();
        if let Some(pair) = unclosed_under(sizes, pairs, &entries, end) {
            return Some(Broken { operator: k, pair });
        }
        next = read.next;
    }
    None
}

// What keeps a list from being good, the start first; nothing of a good one.
pub fn first_fault(
    bytes: &[u8],
    at: usize,
    count: usize,
    sizes: &[u64],
    start: &[u64],
    pairs: &[u64],
) -> Option<Fault>
    requires { Listed sizes.now pairs.now × State sizes.now start.now }
    ensures { (T : Task) (end : ℕ) → ReadAs T bytes.now at count end sizes.now start.now (has pairs.now) → FaultIs T result }
{
    let end = numbering::features(sizes);
    if let Some(pair) = first_held(sizes, start, pairs, end) {
        return Some(Fault::Held(pair));
    }
    let broken = first_broken(bytes, at, count, sizes, pairs, end)?;
    Some(Fault::Unclosed(broken.pair, broken.operator))
}
