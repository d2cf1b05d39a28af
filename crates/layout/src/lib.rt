// Where the parts of a workspace stand, how many words a set of features takes, and the parts themselves, lent to be read.

#![tactic(auto)]

ghost use Rattle.std.specs.Prelude.{◌≡◌, ◌≤◌, length};
ghost use Rattle.meaning.specs.Limits.{most_variables, most_features};
ghost use Rattle.meaning.specs.Workspace.{words_for, start_at, goal_at};
ghost use Rattle.layout.specs.Places.{places_of};
ghost use Rattle.layout.specs.Parts.{sizes_part, start_part, goal_part, pairs_part, slots_part, Headed, Due};

use limits::SIZES_AT;
use words::WORD_BITS;

// Where each part of a workspace begins behind its sizes, and where the last part ends.
#[derive(Clone, Copy)]
pub struct Places {
    pub start: usize,
    pub goal: usize,
    pub pairs: usize,
    pub slots: usize,
    pub end: usize,
}

// How many words a set of n features takes.
pub fn words_for(n: usize) -> usize
    requires { n ≤ most_features }
    ensures { result ≡ words_for n }
{
    n.div_ceil(WORD_BITS)
}

// Where the start's values begin, behind v sizes.
pub fn start_at(v: usize) -> usize
    requires { v ≤ most_variables }
    ensures { result ≡ start_at v }
{
    SIZES_AT + v
}

// Where the goal's values begin, behind the start's.
pub fn goal_at(v: usize) -> usize
    requires { v ≤ most_variables }
    ensures { result ≡ goal_at v }
{
    start_at(v) + v
}

// The places of a workspace for v variables and n features.
pub fn places_for(v: usize, n: usize) -> Places
    requires { (v ≤ most_variables) × (n ≤ most_features) }
    ensures { result ≡ places_of v n }
{
    let words = words_for(n);
    let start = start_at(v);
    let goal = goal_at(v);
    let pairs = goal + v;
    let slots = pairs + words;
    Places {
        start,
        goal,
        pairs,
        slots,
        end: slots + n * words,
    }
}

// The sizes of a workspace for v variables.
pub fn sizes(workspace: &[u64], v: usize) -> &[u64]
    requires { (v ≤ most_variables) × (start_at v ≤ length workspace.now) }
    ensures { result.now ≡ sizes_part v workspace.now }
{
    &workspace[SIZES_AT..start_at(v)]
}

// The start's values.
pub fn start(workspace: &[u64], v: usize, n: usize) -> &[u64]
    requires { Headed v n workspace.now }
    ensures { result.now ≡ start_part v workspace.now }
{
    let at = places_for(v, n);
    &workspace[at.start..at.goal]
}

// The goal's values.
pub fn goal(workspace: &[u64], v: usize, n: usize) -> &[u64]
    requires { Headed v n workspace.now }
    ensures { result.now ≡ goal_part v workspace.now }
{
    let at = places_for(v, n);
    &workspace[at.goal..at.pairs]
}

// The set of listed pairs.
pub fn pairs(workspace: &[u64], v: usize, n: usize) -> &[u64]
    requires { Headed v n workspace.now }
    ensures { result.now ≡ pairs_part v n workspace.now }
{
    let at = places_for(v, n);
    &workspace[at.pairs..at.slots]
}

// The slots.
pub fn slots(workspace: &[u64], v: usize, n: usize) -> &[u64]
    requires { Due v n workspace.now }
    ensures { result.now ≡ slots_part v n workspace.now }
{
    let at = places_for(v, n);
    &workspace[at.slots..at.end]
}
