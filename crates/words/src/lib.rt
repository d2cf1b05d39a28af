// Sets of features in slices of 64-bit words: members and their count, changes of one feature, sums, parities of what two sets share.

#![tactic(auto)]

ghost use Rattle.std.specs.Prelude.{◌≡◌, ◌&&◌, ◌*◌, ◌^◌, ◌≤◌, ◌<◌, ℕ, length, replicate};
ghost use Rattle.meaning.specs.Limits.{word_bits};
ghost use Rattle.meaning.specs.Sets.{odd, shared};
ghost use Rattle.meaning.specs.Workspace.{has};
ghost use Rattle.words.specs.Change.{toggled, Includes, summed};
ghost use Rattle.theory.specs.Tells.{Tells};
ghost use Rattle.words.specs.Next.{Next, Empty, held};
ghost use Rattle.words.specs.Members.{members_in};

pub const WORD_BITS: usize = 64;

// Whether a feature is a member.
pub fn has(words: &[u64], f: usize) -> bool
    requires { f < word_bits * length words.now }
    ensures { result ≡ has words.now f }
{
    (words[f / WORD_BITS] >> (f % WORD_BITS)) % 2 == 1
}

// Puts a feature in, or takes it out where it is a member.
pub fn toggle(words: &mut [u64], f: usize)
    requires { f < word_bits * length words.old }
    ensures { words.new ≡ toggled words.old f }
{
    words[f / WORD_BITS] ^= 1 << (f % WORD_BITS);
}

// Puts a feature in, where it is no member yet.
pub fn include(words: &mut [u64], f: usize)
    requires { f < word_bits * length words.old }
    ensures { Includes words.old f words.new }
{
    if !has(words, f) {
        toggle(words, f);
    }
}

// Adds a set to another: what exactly one of the two has.
pub fn add(into: &mut [u64], from: &[u64])
    requires { length into.old ≡ length from.now }
    ensures { into.new ≡ summed into.old from.now }
{
    for (i, word) in into.iter_mut().enumerate() {
        *word ^= from[i];
    }
}

// Whether two sets share an odd number of features. The words that they share are added up, so that bits are counted once.
pub fn odd_shared(a: &[u64], b: &[u64]) -> bool
    requires { length a.now ≡ length b.now }
    ensures { result ≡ odd (shared (word_bits * length a.now) (has a.now) (has b.now)) }
{
    let mut sum = 0u64;
    for (x, y) in a.iter().zip(b) {
        sum ^= x & y;
    }
    sum.count_ones() % 2 == 1
}

// The least number at `start` or above it that `count` words hold, each of which a closure gives; the number of bits of all words where there is none.
fn next_held<F: Fn(usize) -> u64>(word: F, count: usize, start: usize) -> usize
    ghost at: { ℕ → ℕ }
    requires room { (start ≤ word_bits * count) × (word_bits * count < 2 ^ 64) }
    requires callable { (i : ℕ) → i < count → F.pre word i }
    requires words { (i x : ℕ) → i < count → F.post word i x → x ≡ at i }
    ensures { Next (held at) (word_bits * count) start result }
{
    let first = start / WORD_BITS;
    if count <= first {
        return start;
    }
    let rest = word(first) >> (start % WORD_BITS);
    if rest != 0 {
        return start + rest.trailing_zeros() as usize;
    }
    for i in first + 1..count {
        let here = word(i);
        if here != 0 {
            return i * WORD_BITS + here.trailing_zeros() as usize;
        }
    }
    count * WORD_BITS
}

// The least member at `start` or above it; the number of bits of all words where there is none. No Option, as the walks compare this number with where they end, which may lie
// below it, in the same test.
pub fn next_member(words: &[u64], start: usize) -> usize
    requires { (start ≤ word_bits * length words.now) × (word_bits * length words.now < 2 ^ 64) }
    ensures { Next (has words.now) (word_bits * length words.now) start result }
{
    next_held(|i| words[i], words.len(), start)
}

// The least number at `start` or above it that two sets share; the number of bits of all words where there is none.
pub fn next_shared(a: &[u64], b: &[u64], start: usize) -> usize
    requires { (length a.now ≡ length b.now) × (start ≤ word_bits * length a.now) × (word_bits * length a.now < 2 ^ 64) }
    ensures { Next (λ f. has a.now f && has b.now f) (word_bits * length a.now) start result }
{
    next_held(|i| a[i] & b[i], a.len(), start)
}

// How many members a set has.
pub fn count(words: &[u64]) -> usize
    requires { word_bits * length words.now < 2 ^ 64 }
    ensures { result ≡ length (members_in words.now) }
{
    words.iter().map(|word| word.count_ones() as usize).sum()
}

// Whether a set has no member. Any number of words is taken.
pub fn is_empty(words: &[u64]) -> bool
    ensures { Tells result (Empty words.now) }
{
    words.iter().all(|word| *word == 0)
}

// Takes every member out.
pub fn clear(words: &mut [u64])
    ensures { words.new ≡ replicate (length words.old) 0 }
{
    words.fill(0);
}

// Makes a set the same as another. A loop, as the library's method would have whoever links the archive bring memmove.
pub fn copy(into: &mut [u64], from: &[u64])
    requires { length into.old ≡ length from.now }
    ensures { into.new ≡ from.now }
{
    for (i, word) in into.iter_mut().enumerate() {
        *word = from[i];
    }
}
