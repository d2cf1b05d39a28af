// Numbers of a line, written in decimal: one number, and the members of a set of features.

#![tactic(auto)]

ghost use Rattle.std.specs.Prelude.{◌+◌, ◌*◌, ◌^◌, ◌<◌, ◌≤◌, length};
ghost use Rattle.meaning.specs.Limits.{word_bits};
ghost use Rattle.meaning.specs.Line.{word, words_in};
ghost use Rattle.words.specs.Members.{members_in};
ghost use Rattle.decimal.specs.Put.{Put};

use words::WORD_BITS;

const BASE: usize = 10;

// Writes a blank and a number from a place on, and answers the place after it.
pub fn put_word(line: &mut [u8], at: usize, n: usize) -> usize
    requires { at + length (word n) ≤ length line.old }
    ensures { Put line.old at (word n) result line.new }
{
    if n < BASE {
        line[at] = b' ';
        line[at + 1] = b'0' + n as u8;
        return at + 2;
    }
    let last = put_word(line, at, n / BASE);
    line[last] = b'0' + (n % BASE) as u8;
    last + 1
}

// Writes the members of a set of features, increasing, each with a blank before it, and answers the place after them.
pub fn put_members(line: &mut [u8], at: usize, words: &[u64]) -> usize
    requires { (word_bits * length words.now < 2 ^ 64) × (at + length (words_in (members_in words.now)) ≤ length line.old) }
    ensures { Put line.old at (words_in (members_in words.now)) result line.new }
{
    let mut next = at;
    // A walk and no count: an iterator over the members would be this same walk behind a type of its own.
    let mut f = words::next_member(words, 0);
    while f < words.len() * WORD_BITS {
        next = put_word(line, next, f);
        f = words::next_member(words, f + 1);
    }
    next
}
