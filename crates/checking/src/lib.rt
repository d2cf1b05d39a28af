// The checker: whether weights separate the start of a task from its goal.

#![tactic(auto)]

ghost use Rattle.std.specs.Prelude.{◌≡◌, false, List, ℕ, ◌<◌, replicate};
ghost use Rattle.meaning.specs.Limits.{number_end};
ghost use Rattle.meaning.specs.Sets.{◌⊕◌};
ghost use Rattle.meaning.specs.Task.{State, Task};
ghost use Rattle.meaning.specs.Feature.{features, parity};
ghost use Rattle.meaning.specs.Number.{Read};
ghost use Rattle.meaning.specs.File.{kind_if, judged_task, InLimits};
ghost use Rattle.meaning.specs.Workspace.{words_for, has};
ghost use Rattle.meaning.specs.Partial.{left_out, judged_partial, ChecksPartial, ChecksPartialNew};
ghost use Rattle.meaning.specs.Answer.{ChecksAs, Checks, ChecksNew};
ghost use Rattle.pairs.specs.Ready.{Listed};
ghost use Rattle.forgetting.specs.Kept.{kept_in};
ghost use Rattle.condition.specs.Walk.{RowFor};
ghost use Rattle.order.specs.With.{following, KnownWith};
ghost use Rattle.checking.specs.Breaking.{breaking_from};
ghost use Rattle.checking.specs.Answer.{verdict_of, verdict_from, verdict_then};

use limits::{HEADER_WORDS, MOST_WORDS};
use operator::Entries;
use reader::Header;

// The checker's answers: accepted, rejected as the ends are alike, rejected at an operator, or refused with the paper's number. Document 01 names this form: "the checker's verdict enum:
// accepted, ends alike, operator with its number, refusal with its number".
#[derive(Clone, Copy)]
pub enum Verdict {
    Accepted,
    EndsAlike,
    Operator(usize),
    Refused(u64),
}

// The first of so many operators that the weights do not allow, where there is one; what cannot be read is allowed.
fn first_breaking(
    bytes: &[u8],
    at: usize,
    count: usize,
    sizes: &[u64],
    pairs: &[u64],
    weights: &[u64],
) -> Option<usize>
    requires { Listed sizes.now pairs.now × RowFor (features sizes.now) weights.now }
    ensures { result ≡ breaking_from sizes.now (has pairs.now) (has weights.now) count bytes.now at }
{
    let mut next = at;
    for k in 0..count {
        let Ok(read) = operator::read_operator(bytes, next, sizes) else {
            return None;
        };
        let entries = read.operator.entries();
        if !condition::is_allowed(sizes, pairs, &entries, weights) {
            return Some(k);
        }
        next = read.next;
    }
    None
}

// Whether the parities of two states differ. The row has room for their difference.
fn do_ends_differ(
    sizes: &[u64],
    start: &[u64],
    goal: &[u64],
    weights: &[u64],
    row: &mut [u64],
) -> bool
    requires { InLimits sizes.now × State sizes.now start.now × State sizes.now goal.now × RowFor (features sizes.now) weights.now
        × (row.old ≡ replicate (words_for (features sizes.now)) 0) }
    ensures { result ≡ parity sizes.now (has weights.now) start.now
        ⊕ parity sizes.now (has weights.now) goal.now }
{
    condition::fill_difference(sizes, start, goal, row);
    words::odd_shared(weights, row)
}

// The verdict on the forgetting operators that are kept, behind so many that are allowed.
fn judge_forgetting(
    count: usize,
    sizes: &[u64],
    goal: &[u64],
    pairs: &[u64],
    weights: &[u64],
) -> Verdict
    requires { (count < number_end) × Listed sizes.now pairs.now × State sizes.now goal.now × RowFor (features sizes.now) weights.now }
    ensures { result ≡ verdict_then sizes.now (has pairs.now) (has weights.now) count
        (kept_in sizes.now (has pairs.now) goal.now false) }
{
    let mut next = forgetting::next_kept(sizes, pairs, goal, false, 0, 0);
    let mut k = 0;
    while let Some(kept) = next {
        let entry = kept.entry(sizes);
        if !condition::is_allowed(sizes, pairs, &Entries::one(&entry), weights) {
            return Verdict::Operator(count + k);
        }
        next = forgetting::next_kept(sizes, pairs, goal, false, kept.variable, kept.value + 1);
        k += 1;
    }
    Verdict::Accepted
}

// The verdict on weights: the ends first, then the operators in their order; if the task forgets, the forgetting ones come last.
fn judge_weights(
    bytes: &[u8],
    at: usize,
    count: usize,
    forgets: bool,
    sizes: &[u64],
    start: &[u64],
    goal: &[u64],
    pairs: &[u64],
    weights: &[u64],
) -> Verdict
    requires { (count < number_end) × Listed sizes.now pairs.now × State sizes.now start.now × State sizes.now goal.now
        × RowFor (features sizes.now) weights.now }
    ensures { result ≡ verdict_from sizes.now start.now goal.now (has pairs.now) (has weights.now)
        count bytes.now at (following sizes.now (has pairs.now) goal.now forgets) }
{
    let w = weights.len();
    let mut row = [0u64; MOST_WORDS];
    if !do_ends_differ(sizes, start, goal, weights, &mut row[..w]) {
        return Verdict::EndsAlike;
    }
    if let Some(k) = first_breaking(bytes, at, count, sizes, pairs, weights) {
        return Verdict::Operator(k);
    }
    if forgets {
        return judge_forgetting(count, sizes, goal, pairs, weights);
    }
    Verdict::Accepted
}

// Reads the weights of a kind for an accepted task into words, by the task's header, and judges them.
fn weigh_within(
    bytes: &[u8],
    weights: &[u8],
    gapped: bool,
    header: Header,
    parts: &[u64],
    forgets: bool,
    words: &mut [u64],
) -> Verdict
    requires { ((judging : Read Task) × (old : List ℕ) × KnownWith judging bytes.now old parts.now header forgets) × (words.old ≡ replicate (words_for header.features) 0) }
    ensures { (judging : Read Task) (old : List ℕ) → KnownWith judging bytes.now old parts.now header forgets
        → ChecksAs (kind_if gapped) judging weights.now (verdict_of result) }
{
    let v = header.variables;
    let n = header.features;
    match reader::read_weights(weights, gapped, n, &mut *words) {
        Ok(_) => judge_weights(
            bytes,
            header.next,
            header.operators,
            forgets,
            layout::sizes(parts, v),
            layout::start(parts, v, n),
            layout::goal(parts, v, n),
            layout::pairs(parts, v, n),
            words,
        ),
        Err(fault) => Verdict::Refused(u64::from(fault.0)),
    }
}

// The same, with words for the weights.
fn weigh(
    bytes: &[u8],
    weights: &[u8],
    gapped: bool,
    header: Header,
    parts: &[u64],
    forgets: bool,
) -> Verdict
    requires { (judging : Read Task) × (old : List ℕ) × KnownWith judging bytes.now old parts.now header forgets }
    ensures { (judging : Read Task) (old : List ℕ) → KnownWith judging bytes.now old parts.now header forgets
        → ChecksAs (kind_if gapped) judging weights.now (verdict_of result) }
{
    let mut words = [0u64; MOST_WORDS];
    let w = layout::words_for(header.features);
    weigh_within(
        bytes,
        weights,
        gapped,
        header,
        parts,
        forgets,
        &mut words[..w],
    )
}

// Checks weights of a kind against a task: the task is judged, then the weights are read, then they are judged.
fn check_as(task: &[u8], weights: &[u8], gapped: bool) -> Verdict
    ensures { ChecksAs (kind_if gapped) (judged_task task.now) weights.now (verdict_of result) }
{
    let mut parts = [0u64; HEADER_WORDS];
    match task::judge(task, &mut parts) {
        Ok(header) => weigh(task, weights, gapped, header, &parts, false),
        Err(fault) => Verdict::Refused(u64::from(fault.0)),
    }
}

// Checks weights of the old kind against a task.
pub fn check(task: &[u8], weights: &[u8]) -> Verdict
    ensures { Checks task.now weights.now (verdict_of result) }
{
    check_as(task, weights, false)
}

// Checks weights of the new kind against a task.
pub fn check_new(task: &[u8], weights: &[u8]) -> Verdict
    ensures { ChecksNew task.now weights.now (verdict_of result) }
{
    check_as(task, weights, true)
}

// Checks weights of a kind against the task that is built for a partial file: the file is judged, then the weights are read, then they are judged.
fn check_partial_as(partial: &[u8], weights: &[u8], gapped: bool) -> Verdict
    ensures { ChecksAs (kind_if gapped) (judged_partial left_out partial.now) weights.now (verdict_of result) }
{
    let mut parts = [0u64; HEADER_WORDS];
    match order::judge(partial, false, &mut parts) {
        Ok(judged) => weigh(partial, weights, gapped, judged.header, &parts, true),
        Err(fault) => Verdict::Refused(u64::from(fault.0)),
    }
}

// Checks weights of the old kind against the task that is built for a partial file.
pub fn check_partial(partial: &[u8], weights: &[u8]) -> Verdict
    ensures { ChecksPartial partial.now weights.now (verdict_of result) }
{
    check_partial_as(partial, weights, false)
}

// Checks weights of the new kind against the task that is built for a partial file.
pub fn check_partial_new(partial: &[u8], weights: &[u8]) -> Verdict
    ensures { ChecksPartialNew partial.now weights.now (verdict_of result) }
{
    check_partial_as(partial, weights, true)
}
