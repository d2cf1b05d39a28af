// The header of the task that is built for a partial file: sizes with one value more each, and the listed pairs under their new numbers.

#![tactic(auto)]

ghost use Rattle.std.specs.Prelude.{◌≡◌, ◌+◌, ◌*◌, ◌<◌, ◌≤◌, length, replicate};
ghost use Rattle.meaning.specs.Limits.{word_bits, most_variables, most_features};
ghost use Rattle.meaning.specs.Sets.{listed};
ghost use Rattle.meaning.specs.Feature.{features};
ghost use Rattle.meaning.specs.Workspace.{has, packed, words_for, pairs_at, slots_at};
ghost use Rattle.meaning.specs.Partial.{built_sizes, built_pairs};
ghost use Rattle.numbering.specs.Sizes.{SmallSizes};
ghost use Rattle.words.specs.Toggled.{toggled_all};
ghost use Rattle.layout.specs.Parts.{sizes_part, pairs_part, Headed};
ghost use Rattle.reader.specs.Answer.{written, begun};
ghost use Rattle.renumbering.specs.Pairs.{number_if, line_pairs, block_pairs, row_pairs, LineRoom, Renumbers};
ghost use Rattle.renumbering.specs.Header.{Own, built_total, states_by, pairs_by, built_words};

use limits::{MOST_VARIABLES, SIZES_AT};
use numbering::Plane;

// Sizes with one value more each, "unknown" as the highest.
pub fn widen(sizes: &[u64], wider: &mut [u64])
    requires { SmallSizes sizes.now × (length wider.old ≡ length sizes.now) }
    ensures { wider.new ≡ built_sizes sizes.now }
{
    for (i, wide) in wider.iter_mut().enumerate() {
        *wide = sizes[i] + 1;
    }
}

// Puts a pair in under its new number, if it is listed under its old one.
fn renumber_pair(old: &[u64], from: usize, new: &mut [u64], to: usize)
    requires { (from < word_bits * length old.now) × (to < word_bits * length new.old) }
    ensures { new.new ≡ toggled_all new.old (number_if (has old.now from) to) }
{
    if !words::has(old, from) {
        return;
    }
    words::toggle(new, to);
}

// The pairs of value x of one variable with the values of another, by where the features of the two stand before and after.
fn renumber_line(old: &[u64], from: Plane, new: &mut [u64], to: Plane, x: usize, end: usize)
    requires { LineRoom old.now new.old from to x end }
    ensures { new.new ≡ toggled_all new.old (line_pairs (has old.now) from to x end) }
{
    for y in 0..end {
        renumber_pair(
            old,
            numbering::number(from, x, y),
            new,
            numbering::number(to, x, y),
        );
    }
}

// The pairs of the variables i and j; none where i is not the first.
fn renumber_block(sizes: &[u64], old: &[u64], wider: &[u64], i: usize, j: usize, new: &mut [u64])
    requires { Renumbers sizes.now old.now wider.now new.old × (i < length sizes.now) × (j < length sizes.now) }
    ensures { new.new ≡ toggled_all new.old (block_pairs sizes.now (has old.now) i j) }
{
    if j <= i {
        return;
    }
    let from = numbering::plane_of(sizes, i, j);
    let to = numbering::plane_of(wider, i, j);
    let end = numbering::size(sizes, j);
    for x in 0..numbering::size(sizes, i) {
        renumber_line(old, from, new, to, x, end);
    }
}

// The pairs with variable i as the first.
fn renumber_row(sizes: &[u64], old: &[u64], wider: &[u64], i: usize, new: &mut [u64])
    requires { Renumbers sizes.now old.now wider.now new.old × (i < length sizes.now) }
    ensures { new.new ≡ toggled_all new.old (row_pairs sizes.now (has old.now) i) }
{
    for j in 0..sizes.len() {
        renumber_block(sizes, old, wider, i, j, new);
    }
}

// All listed pairs under their new numbers, in words that hold none yet.
fn renumber(sizes: &[u64], old: &[u64], wider: &[u64], new: &mut [u64])
    requires { Renumbers sizes.now old.now wider.now new.old × (new.old ≡ replicate (words_for (features (built_sizes sizes.now))) 0) }
    ensures { new.new ≡ packed (features (built_sizes sizes.now)) (listed (built_pairs sizes.now (has old.now))) }
{
    for i in 0..sizes.len() {
        renumber_row(sizes, old, wider, i, new);
    }
}

// Puts values into words from a place on.
fn put(words: &mut [u64], at: usize, values: &[u64])
    requires { at + length values.now ≤ length words.old }
    ensures { words.new ≡ written words.old at values.now }
{
    let end = at + values.len();
    words::copy(&mut words[at..end], values);
}

// Puts the wider sizes with their count, and start and goal as they are.
fn put_states(own: &[u64], v: usize, n: usize, wider: &[u64], header: &mut [u64])
    requires { Headed v n own.now × (length wider.now ≡ v) × (pairs_at v ≤ length header.old) }
    ensures { header.new ≡ begun header.old (states_by v wider.now own.now) }
{
    put(&mut *header, 0, &[v as u64]);
    put(&mut *header, SIZES_AT, wider);
    put(&mut *header, layout::start_at(v), layout::start(own, v, n));
    put(&mut *header, layout::goal_at(v), layout::goal(own, v, n));
}

// Puts the listed pairs under their new numbers behind the states, where there are none yet.
fn put_pairs(own: &[u64], v: usize, n: usize, wider: &[u64], total: usize, header: &mut [u64])
    requires { Own v n own.now × (wider.now ≡ built_sizes (sizes_part v own.now)) × (total ≡ built_total v own.now) × (slots_at v total ≤ length header.old)
        × (pairs_part v total header.old ≡ replicate (words_for total) 0) }
    ensures { header.new ≡ written header.old (pairs_at v) (pairs_by v n own.now) }
{
    let places = layout::places_for(v, total);
    let pairs = places.pairs;
    let slots = places.slots;
    renumber(
        layout::sizes(own, v),
        layout::pairs(own, v, n),
        wider,
        &mut header[pairs..slots],
    );
}

// Builds the header with room for the wider sizes.
fn build_with(own: &[u64], v: usize, n: usize, wider: &mut [u64], header: &mut [u64]) -> usize
    requires { Own v n own.now × (length wider.old ≡ v) × (slots_at most_variables most_features ≤ length header.old) × (header.old ≡ replicate (length header.old) 0) }
    ensures total { result ≡ built_total v own.now }
    ensures words { header.new ≡ begun header.old (built_words v n own.now) }
{
    widen(layout::sizes(own, v), &mut *wider);
    let total = numbering::features(wider);
    put_states(own, v, n, wider, &mut *header);
    put_pairs(own, v, n, wider, total, &mut *header);
    total
}

// Builds the header of the built task in words that are all 0, from the words of a partial file's front with v variables and n features of its own. The answer
// is how many features the built task has.
pub fn build_header(own: &[u64], v: usize, n: usize, header: &mut [u64]) -> usize
    requires { Own v n own.now × (slots_at most_variables most_features ≤ length header.old) × (header.old ≡ replicate (length header.old) 0) }
    ensures total { result ≡ built_total v own.now }
    ensures words { header.new ≡ begun header.old (built_words v n own.now) }
{
    let mut wider = [0u64; MOST_VARIABLES];
    build_with(own, v, n, &mut wider[..v], header)
}
