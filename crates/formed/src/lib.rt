// Whether any slice of words is a well formed workspace, part by part in the order of its words.

#![tactic(auto)]

ghost use Rattle.std.specs.Prelude.{◌≡◌, ◌≤◌, length};
ghost use Rattle.meaning.specs.Limits.{most_features};
ghost use Rattle.meaning.specs.Task.{State};
ghost use Rattle.meaning.specs.Workspace.{has, words_for, Proper, WellFormed};
ghost use Rattle.theory.specs.Tells.{Tells};
ghost use Rattle.formed.specs.Tests.{EachSize, Within};
ghost use Rattle.formed.specs.Parts.{content_from, Cut, Sized};
ghost use Rattle.formed.specs.Formed.{FormedIs};

use limits::{LEAST_SIZE, LEAST_VARIABLES, MOST_FEATURES, MOST_SIZE, MOST_VARIABLES};
use words::WORD_BITS;

// How many variables and features a workspace has.
#[derive(Clone, Copy)]
pub struct Shape {
    pub variables: usize,
    pub features: usize,
}

// Whether each size is within its limits.
fn are_sizes(sizes: &[u64]) -> bool
    ensures { Tells result (EachSize sizes.now (length sizes.now)) }
{
    sizes.iter().all(|size| (LEAST_SIZE..=MOST_SIZE).contains(&(*size as usize)))
}

// Whether each value is below the size of its variable.
fn is_state(sizes: &[u64], values: &[u64]) -> bool
    requires { length values.now ≡ length sizes.now }
    ensures { Tells result (State sizes.now values.now) }
{
    values.iter().zip(sizes).all(|(value, size)| value < size)
}

// Whether every member is at `low` or above it, and below n.
fn are_within(words: &[u64], low: usize, n: usize) -> bool
    requires { (length words.now ≡ words_for n) × (low ≤ n) × (n ≤ most_features) }
    ensures { Tells result (Within (has words.now) low n) }
{
    if words::next_member(words, 0) < low {
        return false;
    }
    words::next_member(words, n) == words.len() * WORD_BITS
}

// Whether the parts of a workspace are those of a proper content, where the sizes keep their limits and each part has its length.
fn is_proper(
    sizes: &[u64],
    start: &[u64],
    goal: &[u64],
    pairs: &[u64],
    area: &[u64],
    n: usize,
) -> bool
    requires { Cut sizes.now start.now goal.now pairs.now area.now n }
    ensures { Tells result (Proper (content_from sizes.now start.now goal.now pairs.now area.now)) }
{
    if !is_state(sizes, start) {
        return false;
    }
    if !is_state(sizes, goal) {
        return false;
    }
    if !are_within(pairs, numbering::atoms(sizes), n) {
        return false;
    }
    if pairs::holds(sizes, pairs, start) {
        return false;
    }
    slots::is_reduced(area, n)
}

// Whether words that begin with v sizes within their limits, of n features, are a well formed workspace.
fn is_formed(workspace: &[u64], v: usize, n: usize) -> bool
    requires { Sized workspace.now v n }
    ensures { Tells result (WellFormed workspace.now) }
{
    let at = layout::places_for(v, n);
    if workspace.len() < at.end {
        return false;
    }
    is_proper(
        layout::sizes(workspace, v),
        layout::start(workspace, v, n),
        layout::goal(workspace, v, n),
        layout::pairs(workspace, v, n),
        layout::slots(workspace, v, n),
        n,
    )
}

// How many variables and features words have, where they are a well formed workspace. Any words are taken.
pub fn well_formed(workspace: &[u64]) -> Option<Shape>
    ensures { FormedIs workspace.now result }
{
    let v = *workspace.first()? as usize;
    if v < LEAST_VARIABLES {
        return None;
    }
    if MOST_VARIABLES < v {
        return None;
    }
    if workspace.len() < layout::start_at(v) {
        return None;
    }
    let sizes = layout::sizes(workspace, v);
    if !are_sizes(sizes) {
        return None;
    }
    let n = numbering::features(sizes);
    if MOST_FEATURES < n {
        return None;
    }
    if !is_formed(workspace, v, n) {
        return None;
    }
    Some(Shape {
        variables: v,
        features: n,
    })
}
