// Which forgetting operators a built task keeps, by its header: the sizes with "unknown" as each variable's highest value, the listed pairs, and the goal.

#![tactic(auto)]

ghost use Rattle.std.specs.Prelude.{◌≡◌, false, [], ◌∷◌, ◌-◌, ◌<◌, ◌≤◌, length};
ghost use Rattle.meaning.specs.Task.{State, size};
ghost use Rattle.meaning.specs.File.{InLimits};
ghost use Rattle.meaning.specs.Workspace.{has};
ghost use Rattle.pairs.specs.Ready.{Listed};
ghost use Rattle.forgetting.specs.Out.{named_by, against_at, against_by, out_by};
ghost use Rattle.forgetting.specs.Kept.{FoundIn, Found, unknown_of, forgotten_by, kept_in};

use meaning::Entry;

// A forgetting operator: its variable, and the value that it forgets.
#[derive(Clone, Copy)]
pub struct Kept {
    pub variable: usize,
    pub value: usize,
}

impl Kept {
    // The one entry of the operator, by the built sizes.
    pub fn entry(self, sizes: &[u64]) -> Entry
        requires { (self.variable < length sizes.now) × (self.value < unknown_of sizes.now self.variable) }
        ensures { (result ∷ []) ≡ forgotten_by sizes.now self.variable self.value }
    {
        Entry {
            variable: self.variable,
            before: self.value,
            after: numbering::size(sizes, self.variable) - 1,
        }
    }
}

// Whether the order names variable i: its goal value is not "unknown".
#[tactic(auto, unfolding(crate::specs::Out::named_by))]
fn is_named(sizes: &[u64], goal: &[u64], i: usize) -> bool
    requires { InLimits sizes.now × State sizes.now goal.now × (i < length sizes.now) }
    ensures { result ≡ named_by sizes.now goal.now i }
{
    goal[i] as usize + 1 < numbering::size(sizes, i)
}

// Whether value x of a silent variable i is exclusive with the goal value of variable j, if j is named.
#[tactic(auto, unfolding(crate::specs::Out::against_at))]
fn is_against_at(sizes: &[u64], pairs: &[u64], goal: &[u64], i: usize, x: usize, j: usize) -> bool
    requires { Listed sizes.now pairs.now × State sizes.now goal.now × (i < length sizes.now) × (x < size sizes.now i)
        × (named_by sizes.now goal.now i ≡ false) × (j < length sizes.now) }
    ensures { result ≡ against_at sizes.now (has pairs.now) goal.now i x j }
{
    if !is_named(sizes, goal, j) {
        return false;
    }
    pairs::is_paired(sizes, pairs, i, x, j, goal[j] as usize)
}

// Whether it is exclusive with the goal value of some variable that is named.
fn is_against(sizes: &[u64], pairs: &[u64], goal: &[u64], i: usize, x: usize) -> bool
    requires { Listed sizes.now pairs.now × State sizes.now goal.now × (i < length sizes.now) × (x < size sizes.now i)
        × (named_by sizes.now goal.now i ≡ false) }
    ensures { result ≡ against_by sizes.now (has pairs.now) goal.now i x }
{
    (0..sizes.len()).any(|j| is_against_at(sizes, pairs, goal, i, x, j))
}

// Whether the operator that forgets value x of variable i is left out: a lean task leaves out all of the variables that are named.
#[tactic(auto, unfolding(crate::specs::Out::out_by))]
fn is_left_out(sizes: &[u64], pairs: &[u64], goal: &[u64], lean: bool, i: usize, x: usize) -> bool
    requires { Listed sizes.now pairs.now × State sizes.now goal.now × (i < length sizes.now) × (x < size sizes.now i) }
    ensures { result ≡ out_by sizes.now (has pairs.now) goal.now lean i x }
{
    if is_named(sizes, goal, i) {
        return lean;
    }
    is_against(sizes, pairs, goal, i, x)
}

// The first value of variable i that is kept from x on, where there is one.
fn next_value(
    sizes: &[u64],
    pairs: &[u64],
    goal: &[u64],
    lean: bool,
    i: usize,
    x: usize,
) -> Option<usize>
    requires { Listed sizes.now pairs.now × State sizes.now goal.now × (i < length sizes.now) × (x ≤ size sizes.now i - 1) }
    ensures { FoundIn sizes.now (out_by sizes.now (has pairs.now) goal.now lean) i x result }
{
    let end = numbering::size(sizes, i) - 1;
    (x..end).find(|y| !is_left_out(sizes, pairs, goal, lean, i, *y))
}

// The first that is kept from value x of variable i on, where there is one.
pub fn next_kept(
    sizes: &[u64],
    pairs: &[u64],
    goal: &[u64],
    lean: bool,
    i: usize,
    x: usize,
) -> Option<Kept>
    requires { Listed sizes.now pairs.now × State sizes.now goal.now × (i ≤ length sizes.now) × (x ≤ size sizes.now i - 1) }
    ensures { Found sizes.now (out_by sizes.now (has pairs.now) goal.now lean) i x result }
{
    let mut from = x;
    for variable in i..sizes.len() {
        if let Some(value) = next_value(sizes, pairs, goal, lean, variable, from) {
            return Some(Kept { variable, value });
        }
        from = 0;
    }
    None
}

// How many are kept.
pub fn count_kept(sizes: &[u64], pairs: &[u64], goal: &[u64], lean: bool) -> usize
    requires { Listed sizes.now pairs.now × State sizes.now goal.now }
    ensures { result ≡ length (kept_in sizes.now (has pairs.now) goal.now lean) }
{
    let mut next = next_kept(sizes, pairs, goal, lean, 0, 0);
    let mut count = 0;
    while let Some(kept) = next {
        next = next_kept(sizes, pairs, goal, lean, kept.variable, kept.value + 1);
        count += 1;
    }
    count
}
