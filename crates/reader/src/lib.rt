// Reads what stands before the operators of a task file into words that are laid out as the front of a workspace; and weight files.

#![tactic(auto)]

ghost use Rattle.std.specs.Prelude.{ℕ, List, ◌≡◌, ◌+◌, ◌*◌, ◌≤◌, length, get_or, take, drop, replicate};
ghost use Rattle.meaning.specs.Limits.{word_bits, most_variables, most_size, most_features};
ghost use Rattle.meaning.specs.File.{items_of, size_list, kind_if, mark_of, features_of, feature_list, judged_weights_as};
ghost use Rattle.meaning.specs.Workspace.{start_at, pairs_at, slots_at, words_for};
ghost use Rattle.meaning.specs.Feature.{atoms, features};
ghost use Rattle.theory.specs.Contents.{sizes_in};
ghost use Rattle.number.specs.Answers.{reason_of, place_of};
ghost use Rattle.reader.specs.Lists.{Apart};
ghost use Rattle.reader.specs.Header.{Counts, limited_by, features_judged, whole_list};
ghost use Rattle.reader.specs.Answer.{written, feature_words, begun, sized_words, ReadsInto};
ghost use Rattle.words.specs.Toggled.{toggled_all};
ghost use Rattle.reader.specs.Front.{states_of, state_words, front_of, HeaderInto};
ghost use Rattle.reader.specs.Pairs.{Cleared, BehindInto};

use limits::{LEAST_SIZE, LEAST_VARIABLES, MOST_FEATURES, MOST_SIZE, MOST_VARIABLES, SIZES_AT};
use number::{Fault, Reason};

// What stands before the operators of a task file: how many variables, features and operators there are, and the place after it.
#[derive(Clone, Copy)]
pub struct Header {
    pub variables: usize,
    pub features: usize,
    pub operators: usize,
    pub next: usize,
}

// Reads so many numbers from `low` on, each below its bound, into the words from `to` on. The bounds stand in the words from `bounds` on; a number may be
// written over a bound that has been used.
pub fn items_at(
    bytes: &[u8],
    at: usize,
    words: &mut [u64],
    bounds: usize,
    to: usize,
    count: usize,
    low: usize,
    reason: Reason,
) -> Result<usize, Fault>
    requires { (bounds + count ≤ length words.old) × (to + count ≤ length words.old) × Apart bounds to count }
    ensures { ReadsInto (items_of low (reason_of reason) (take count (drop bounds words.old)) bytes.now at) (written words.old to) result words.new }
{
    let mut next = at;
    for i in 0..count {
        let bound = words[bounds + i] as usize;
        let number = number::item_at(bytes, next, low, bound, reason)?;
        words[to + i] = number.value as u64;
        next = number.next;
    }
    Ok(next)
}

// Reads so many numbers from `low` on, all below one bound, into the words from `to` on.
pub fn items_below(
    bytes: &[u8],
    at: usize,
    words: &mut [u64],
    to: usize,
    count: usize,
    low: usize,
    bound: usize,
    reason: Reason,
) -> Result<usize, Fault>
    requires { (count ≤ most_variables) × (to + count ≤ length words.old) }
    ensures { ReadsInto (items_of low (reason_of reason) (replicate count bound) bytes.now at) (written words.old to) result words.new }
{
    let bounds = [bound as u64; MOST_VARIABLES];
    words::copy(&mut words[to..to + count], &bounds[..count]);
    items_at(bytes, at, words, to, to, count, low, reason)
}

// Reads v and v sizes, each from `least` to `most`; N is not judged yet.
pub fn read_sizes(
    bytes: &[u8],
    at: usize,
    header: &mut [u64],
    least: usize,
    most: usize,
) -> Result<usize, Fault>
    requires { (start_at most_variables ≤ length header.old) × (most ≤ most_size) }
    ensures { ReadsInto (size_list least most bytes.now at) (λ sizes. begun header.old (sized_words sizes)) result header.new }
{
    let count = number::item_at(
        bytes,
        at,
        LEAST_VARIABLES,
        MOST_VARIABLES + 1,
        Reason::Limit,
    )?;
    let v = count.value;
    header[0] = v as u64;
    items_below(
        bytes,
        count.next,
        header,
        SIZES_AT,
        v,
        least,
        most + 1,
        Reason::Limit,
    )
}

// Judges N behind v sizes that were read from a place on: `next` is the place after them, and a fault is placed at the last of them.
pub fn judge_features(
    bytes: &[u8],
    at: usize,
    v: usize,
    n: usize,
    next: usize,
) -> Result<usize, Fault>
    ensures { result ≡ place_of (features_judged bytes.now at v n next) }
{
    if MOST_FEATURES < n {
        return Err(Fault(Reason::Limit, number::numbers_on(bytes, at, v)));
    }
    Ok(next)
}

// Reads v and the sizes, and judges N, which is counted by the sizes.
pub fn read_limited<F: FnOnce(&[u64]) -> usize>(
    bytes: &[u8],
    at: usize,
    header: &mut [u64],
    least: usize,
    most: usize,
    count: F,
) -> Result<usize, Fault>
    ghost total: { List ℕ → ℕ }
    requires { (start_at most_variables ≤ length header.old) × (most ≤ most_size) × Counts most total (F.pre count) (F.post count) }
    ensures { ReadsInto (limited_by least most total bytes.now at) (λ sizes. begun header.old (sized_words sizes)) result header.new }
{
    let next = read_sizes(bytes, at, &mut *header, least, most)?;
    let v = header[0] as usize;
    let n = count(layout::sizes(header, v));
    judge_features(bytes, at, v, n, next)
}

// Reads sizes, start and goal.
fn read_states(bytes: &[u8], at: usize, header: &mut [u64]) -> Result<usize, Fault>
    requires { pairs_at most_variables ≤ length header.old }
    ensures { ReadsInto (states_of bytes.now at) (λ states. begun header.old (state_words states)) result header.new }
{
    let next = read_limited(
        bytes,
        at,
        &mut *header,
        LEAST_SIZE,
        MOST_SIZE,
        numbering::features,
    )?;
    let v = header[0] as usize;
    let start = layout::start_at(v);
    let goal = layout::goal_at(v);
    let after = items_at(
        bytes,
        next,
        &mut *header,
        SIZES_AT,
        start,
        v,
        0,
        Reason::Range,
    )?;
    items_at(bytes, after, header, SIZES_AT, goal, v, 0, Reason::Range)
}

// Reads so many features, from `low` on and below `high`, and toggles each in the words.
fn features_at(
    bytes: &[u8],
    at: usize,
    gapped: bool,
    low: usize,
    high: usize,
    words: &mut [u64],
    count: usize,
) -> Result<usize, Fault>
    requires { high ≤ word_bits * length words.old }
    ensures { ReadsInto (features_of (kind_if gapped) count low high 0 bytes.now at) (toggled_all words.old) result words.new }
{
    let mut next = at;
    let mut least = 0;
    for _ in 0..count {
        let feature = number::feature_at(bytes, next, gapped, low, high, least)?;
        words::toggle(&mut *words, feature.value);
        least = feature.value + 1;
        next = feature.next;
    }
    Ok(next)
}

// Reads a count and so many features, from `low` on and below `high`, into words that hold none yet.
pub fn read_features(
    bytes: &[u8],
    at: usize,
    gapped: bool,
    low: usize,
    high: usize,
    words: &mut [u64],
) -> Result<usize, Fault>
    requires { (low ≤ high) × (words.old ≡ replicate (words_for high) 0) }
    ensures { ReadsInto (feature_list (kind_if gapped) low high bytes.now at) (feature_words high) result words.new }
{
    let count = number::number_at(bytes, at)?;
    features_at(bytes, count.next, gapped, low, high, words, count.value)
}

// Reads the pairs of a task with n features behind sizes, start and goal.
fn read_pairs(
    bytes: &[u8],
    at: usize,
    gapped: bool,
    header: &mut [u64],
    n: usize,
) -> Result<usize, Fault>
    requires { Cleared header.old n }
    ensures { ReadsInto (feature_list (kind_if gapped) (atoms (sizes_in header.old)) n bytes.now at) (λ pairs. written header.old (pairs_at (get_or header.old 0 0)) (feature_words n pairs)) result header.new }
{
    let v = header[0] as usize;
    let low = numbering::atoms(layout::sizes(header, v));
    let places = layout::places_for(v, n);
    let pairs = places.pairs;
    let slots = places.slots;
    read_features(bytes, at, gapped, low, n, &mut header[pairs..slots])
}

// Reads the mark that files of a kind begin with.
pub fn read_mark(bytes: &[u8], at: usize, gapped: bool) -> Result<usize, Fault>
    ensures { result ≡ place_of (mark_of (kind_if gapped) bytes.now at) }
{
    if !gapped {
        return Ok(at);
    }
    let mark = number::item_at(bytes, at, 0, 1, Reason::Range)?;
    Ok(mark.next)
}

// Reads a list of features of a task with n features up to the end of the file, into words that hold none yet.
fn read_list(
    bytes: &[u8],
    at: usize,
    gapped: bool,
    n: usize,
    words: &mut [u64],
) -> Result<usize, Fault>
    requires { words.old ≡ replicate (words_for n) 0 }
    ensures { ReadsInto (whole_list (kind_if gapped) n bytes.now at) (feature_words n) result words.new }
{
    let next = read_features(bytes, at, gapped, 0, n, words)?;
    if next < bytes.len() {
        return Err(Fault(Reason::LeftOver, next));
    }
    Ok(next)
}

// Reads a whole weight file of a kind, of a task with n features, into words that hold none yet.
pub fn read_weights(bytes: &[u8], gapped: bool, n: usize, words: &mut [u64]) -> Result<usize, Fault>
    requires { words.old ≡ replicate (words_for n) 0 }
    ensures { ReadsInto (judged_weights_as (kind_if gapped) n bytes.now) (feature_words n) result words.new }
{
    let at = read_mark(bytes, 0, gapped)?;
    read_list(bytes, at, gapped, n, words)
}

// Reads the pairs and the count of operators behind sizes, start and goal.
pub fn read_behind(
    bytes: &[u8],
    at: usize,
    gapped: bool,
    header: &mut [u64],
) -> Result<Header, Fault>
    requires { Cleared header.old (features (sizes_in header.old)) }
    ensures { BehindInto (kind_if gapped) bytes.now at header.old result header.new }
{
    let v = header[0] as usize;
    let n = numbering::features(layout::sizes(header, v));
    let next = read_pairs(bytes, at, gapped, header, n)?;
    let count = number::number_at(bytes, next)?;
    Ok(Header {
        variables: v,
        features: n,
        operators: count.value,
        next: count.next,
    })
}

// Reads what stands before the operators of a task file of a kind, from the place behind its mark on, into words that are all 0.
pub fn read_header(
    bytes: &[u8],
    at: usize,
    gapped: bool,
    header: &mut [u64],
) -> Result<Header, Fault>
    requires { (slots_at most_variables most_features ≤ length header.old) × (header.old ≡ replicate (length header.old) 0) }
    ensures { HeaderInto (front_of (kind_if gapped) bytes.now at) header.old result header.new }
{
    let next = read_states(bytes, at, &mut *header)?;
    read_behind(bytes, next, gapped, header)
}
