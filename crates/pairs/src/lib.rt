// Listed pairs: whether atoms are paired, which atoms an operator leaves possible, whether it is idle, a walk over the listed pairs that finds
// those that are unclosed under it, whether a state holds a pair.

#![tactic(auto)]

ghost use Rattle.std.specs.Prelude.{List, ℕ, ◌≡◌, ◌≢◌, true, false, ◌&&◌, not, ◌+◌, ◌*◌, ◌<◌, ◌≤◌, length, IfSome};
ghost use Rattle.meaning.specs.Limits.{word_bits};
ghost use Rattle.meaning.specs.Sets.{some};
ghost use Rattle.meaning.specs.Task.{State, names, size, value};
ghost use Rattle.meaning.specs.Feature.{atoms, features};
ghost use Rattle.meaning.specs.Workspace.{has};
ghost use Rattle.meaning.specs.File.{InLimits};
ghost use Rattle.meaning.specs.Pair.{paired, possible, clashing, idle, closed, unclosed_pair, holds};
ghost use Rattle.theory.specs.Closed.{leaves};
ghost use Rattle.theory.specs.Mending.{beside_in};
ghost use Rattle.numbering.specs.Order.{Stands, Contains};
ghost use Rattle.operator.specs.Entries.{entries_in};
ghost use Rattle.pairs.specs.Ready.{Listed, Ready, Ready-prop, HoldsPossible, HoldsPossible-prop};
ghost use Rattle.pairs.specs.Judge.{valued, unnamed_in};
ghost use Rattle.pairs.specs.None.{Suffices};
ghost use Rattle.pairs.specs.Fill.{free_atoms, Added, Lacks};
ghost use Rattle.pairs.specs.Walk.{ListedAt, Found, Reached};

use limits::ATOM_WORDS;
use numbering::Block;
use operator::Entries;

// A listed pair with its block.
#[derive(Clone, Copy)]
pub struct PairAt {
    pub feature: usize,
    pub block: Block,
}

// An operator beside the listed pairs, with the table of the atoms that it leaves possible.
#[derive(Clone, Copy)]
pub struct Tabled<'a> {
    pub sizes: &'a [u64],
    pub pairs: &'a [u64],
    pub entries: &'a Entries<'a>,
    pub possible: &'a [u64],
    pub ghost ready: { Ready sizes.now pairs.now entries.now } by { Ready-prop sizes.now pairs.now entries.now },
    pub ghost held: { HoldsPossible sizes.now (has pairs.now) entries.now possible.now } by { HoldsPossible-prop sizes.now (has pairs.now) entries.now possible.now },
}

// Whether an operator with these variables names variable u.
pub fn names(variables: &[usize], u: usize) -> bool
    ensures { (befores afters : List ℕ) → result ≡ names (entries_in variables.now befores afters) u }
{
    variables.contains(&u)
}

// Whether the feature of two atoms is listed.
pub fn is_paired(sizes: &[u64], pairs: &[u64], i: usize, x: usize, j: usize, y: usize) -> bool
    requires { Listed sizes.now pairs.now × (i ≢ j) × (i < length sizes.now) × (j < length sizes.now) × (x < size sizes.now i) × (y < size sizes.now j) }
    ensures { result ≡ paired sizes.now (has pairs.now) i x j y }
{
    words::has(pairs, numbering::both(sizes, i, x, j, y))
}

// Whether value y of variable u, which is none of the entries', is paired with none of their before atoms: a look at each of them.
fn is_possible(sizes: &[u64], pairs: &[u64], entries: &Entries, u: usize, y: usize) -> bool
    requires { Ready sizes.now pairs.now entries.now × (names entries.now u ≡ false) × (u < length sizes.now) × (y < size sizes.now u) }
    ensures { result ≡ possible sizes.now (has pairs.now) entries.now u y }
{
    !(0..entries.len()).any(|k| {
        let entry = entries.at(k);
        is_paired(sizes, pairs, entry.variable, entry.before, u, y)
    })
}

// The entries that have to be looked at: none where no pair is listed.
fn looks<'a>(pairs: &[u64], entries: &Entries<'a>) -> Entries<'a>
    ensures { Suffices (has pairs.now) entries.now result }
{
    let count = if words::is_empty(pairs) {
        0
    } else {
        entries.len()
    };
    entries.first(count)
}

// Puts in the atoms of an unnamed variable that are paired with no before atom.
fn fill_variable(sizes: &[u64], pairs: &[u64], entries: &Entries, u: usize, possible: &mut [u64])
    requires { Ready sizes.now pairs.now entries.now × (names entries.now u ≡ false) × (u < length sizes.now)
        × (atoms sizes.now ≤ word_bits * length possible.old) × Lacks sizes.now u possible.old }
    ensures { Added possible.old (free_atoms sizes.now (has pairs.now) entries.now u (size sizes.now u)) possible.new }
{
    let start = numbering::single(sizes, u, 0);
    for y in 0..numbering::size(sizes, u) {
        if is_possible(sizes, pairs, entries, u, y) {
            words::toggle(possible, start + y);
        }
    }
}

// Makes the words the table of the atoms that the operator leaves possible.
pub fn fill_possible(sizes: &[u64], pairs: &[u64], entries: &Entries, possible: &mut [u64])
    requires { Ready sizes.now pairs.now entries.now × (atoms sizes.now ≤ word_bits * length possible.old) }
    ensures { (length possible.new ≡ length possible.old) × HoldsPossible sizes.now (has pairs.now) entries.now possible.new }
{
    words::clear(possible);
    let looked = looks(pairs, entries);
    for u in 0..sizes.len() {
        if !entries.names(u) {
            fill_variable(sizes, pairs, &looked, u, possible);
        }
    }
}

// Whether two of the before atoms are paired.
fn is_clashing(sizes: &[u64], pairs: &[u64], entries: &Entries) -> bool
    requires { Ready sizes.now pairs.now entries.now }
    ensures { result ≡ clashing sizes.now (has pairs.now) entries.now }
{
    !words::is_empty(pairs)
        && (0..entries.len()).any(|l| {
            let entry = entries.at(l);
            !is_possible(
                sizes,
                pairs,
                &entries.first(l),
                entry.variable,
                entry.before,
            )
        })
}

// Whether a set of atoms has one of variable u.
fn has_value(sizes: &[u64], set: &[u64], u: usize) -> bool
    requires { InLimits sizes.now × (u < length sizes.now) × (atoms sizes.now ≤ word_bits * length set.now) }
    ensures { result ≡ valued sizes.now (has set.now) u }
{
    let start = numbering::single(sizes, u, 0);
    (0..numbering::size(sizes, u)).any(|y| words::has(set, start + y))
}

// Whether of some unnamed variable a set has an atom, or has none, as is asked.
fn is_unnamed(sizes: &[u64], variables: &[usize], set: &[u64], asked: bool) -> bool
    requires { InLimits sizes.now × (atoms sizes.now ≤ word_bits * length set.now) }
    ensures { (befores afters : List ℕ) → result ≡ unnamed_in sizes.now (has set.now) (entries_in variables.now befores afters) asked }
{
    (0..sizes.len()).any(|u| !names(variables, u) && has_value(sizes, set, u) == asked)
}

// Whether a set of atoms has one of some unnamed variable.
pub fn has_unnamed(sizes: &[u64], variables: &[usize], set: &[u64]) -> bool
    requires { InLimits sizes.now × (atoms sizes.now ≤ word_bits * length set.now) }
    ensures { (befores afters : List ℕ) → result ≡ beside_in sizes.now (has set.now) (entries_in variables.now befores afters) }
{
    is_unnamed(sizes, variables, set, true)
}

// The next listed pair from a feature on, with its block, which is looked for from a given one on.
fn pair_from(sizes: &[u64], pairs: &[u64], end: usize, block: Block, start: usize) -> Option<PairAt>
    requires { Listed sizes.now pairs.now × (end ≡ features sizes.now) × Stands sizes.now block × (block.start ≤ start) × (start ≤ end) }
    ensures { Found sizes.now pairs.now start result }
{
    let f = words::next_member(pairs, start);
    if end <= f {
        return None;
    }
    Some(PairAt {
        feature: f,
        block: numbering::block_at(sizes, block, f),
    })
}

// The first listed pair, where N is given.
pub fn first_pair(sizes: &[u64], pairs: &[u64], end: usize) -> Option<PairAt>
    requires { Listed sizes.now pairs.now × (end ≡ features sizes.now) }
    ensures { Found sizes.now pairs.now (atoms sizes.now) result }
{
    let block = numbering::first_block(sizes);
    pair_from(sizes, pairs, end, block, block.start)
}

// The listed pair after another one.
pub fn next_pair(sizes: &[u64], pairs: &[u64], end: usize, pair: PairAt) -> Option<PairAt>
    requires { Listed sizes.now pairs.now × (end ≡ features sizes.now) × (pair.feature < end) × Contains sizes.now pair.block pair.feature }
    ensures { Found sizes.now pairs.now (pair.feature + 1) result }
{
    pair_from(sizes, pairs, end, pair.block, pair.feature + 1)
}

impl<'a> Tabled<'a> {
    // Whether the operator is idle.
    pub fn is_idle(self) -> bool
        ensures { result ≡ idle self.entry.sizes.now (has self.entry.pairs.now) self.entry.entries.now }
    {
        is_clashing(self.sizes, self.pairs, self.entries)
            || is_unnamed(self.sizes, self.entries.variables(), self.possible, false)
    }

    // Whether the operator leaves value x of variable i.
    fn leaves(self, i: usize, x: usize) -> bool
        requires { (i < length self.sizes.now) × (x < size self.sizes.now i) }
        ensures { result ≡ leaves self.entry.sizes.now (has self.entry.pairs.now) self.entry.entries.now i x }
    {
        match self.entries.named(i) {
            Some(entry) => entry.after == x,
            None => words::has(self.possible, numbering::single(self.sizes, i, x)),
        }
    }

    // Whether a pair is unclosed under the operator. One of two variables that the operator doesn't name never is.
    pub fn is_unclosed(self, pair: PairAt) -> bool
        requires { Contains self.sizes.now pair.block pair.feature }
        ensures { result ≡ unclosed_pair self.entry.sizes.now (has self.entry.pairs.now) self.entry.entries.now pair.feature }
    {
        let block = pair.block;
        if !self.entries.names(block.first) && !self.entries.names(block.second) {
            return false;
        }
        let values = numbering::values_in(self.sizes, block, pair.feature);
        self.leaves(block.first, values.first) && self.leaves(block.second, values.second)
    }

    // The next listed pair that is unclosed under the operator, from a listed one on.
    pub fn unclosed_from(self, end: usize, pair: Option<PairAt>) -> Option<PairAt>
        requires { (end ≡ features self.sizes.now) × IfSome pair (ListedAt self.sizes.now self.pairs.now) }
        ensures { ((start : ℕ) → Reached self.entry.sizes.now self.entry.pairs.now self.entry.entries.now start pair
            → Reached self.entry.sizes.now self.entry.pairs.now self.entry.entries.now start result)
            × IfSome result (λ unclosed. unclosed_pair self.entry.sizes.now (has self.entry.pairs.now) self.entry.entries.now unclosed.feature ≡ true) }
    {
        let mut next = pair;
        while let Some(pair) = next {
            if self.is_unclosed(pair) {
                return next;
            }
            next = next_pair(self.sizes, self.pairs, end, pair);
        }
        None
    }

    // The first listed pair that is unclosed under the operator.
    pub fn first_unclosed(self, end: usize) -> Option<PairAt>
        requires { end ≡ features self.sizes.now }
        ensures { Reached self.entry.sizes.now self.entry.pairs.now self.entry.entries.now (atoms self.entry.sizes.now) result
            × IfSome result (λ unclosed. unclosed_pair self.entry.sizes.now (has self.entry.pairs.now) self.entry.entries.now unclosed.feature ≡ true) }
    {
        self.unclosed_from(end, first_pair(self.sizes, self.pairs, end))
    }

    // Whether the list is closed under the operator.
    pub fn is_closed(self) -> bool
        ensures { result ≡ closed self.entry.sizes.now (has self.entry.pairs.now) self.entry.entries.now }
    {
        self.is_idle()
            || self
                .first_unclosed(numbering::features(self.sizes))
                .is_none()
    }
}

// Whether the list is closed under an operator. The table of its possible atoms has its room here.
pub fn is_closed(sizes: &[u64], pairs: &[u64], entries: &Entries) -> bool
    requires { Ready sizes.now pairs.now entries.now }
    ensures { result ≡ closed sizes.now (has pairs.now) entries.now }
{
    let mut possible = [0u64; ATOM_WORDS];
    fill_possible(sizes, pairs, entries, &mut possible);
    let tabled = Tabled {
        sizes,
        pairs,
        entries,
        possible: &possible,
    };
    tabled.is_closed()
}

// Whether the value of variable j is paired with that of an earlier variable.
fn holds_at(sizes: &[u64], pairs: &[u64], state: &[u64], j: usize) -> bool
    requires { Listed sizes.now pairs.now × State sizes.now state.now × (j < length sizes.now) }
    ensures { result ≡ some j (λ i. paired sizes.now (has pairs.now) i (value state.now i) j (value state.now j)) }
{
    let y = state[j] as usize;
    (0..j).any(|i| is_paired(sizes, pairs, i, state[i] as usize, j, y))
}

// Whether a state holds a listed pair: a look at each two of its atoms, unless no pair is listed.
pub fn holds(sizes: &[u64], pairs: &[u64], state: &[u64]) -> bool
    requires { Listed sizes.now pairs.now × State sizes.now state.now }
    ensures { result ≡ holds sizes.now (has pairs.now) state.now }
{
    !words::is_empty(pairs) && (0..sizes.len()).any(|j| holds_at(sizes, pairs, state, j))
}
