// Judges a task file of one kind or either, wholly or up to 5: its first fault in the order of the paper, or that it is accepted.

#![tactic(auto)]

ghost use Rattle.std.specs.Prelude.{◌≡◌, ◌≤◌, length, replicate};
ghost use Rattle.meaning.specs.Limits.{most_variables, most_features};
ghost use Rattle.meaning.specs.Task.{State};
ghost use Rattle.meaning.specs.File.{kind_if, operators_of, task_of, judged_as, judged_task};
ghost use Rattle.meaning.specs.Workspace.{slots_at, has};
ghost use Rattle.number.specs.Answers.{place_of};
ghost use Rattle.pairs.specs.Ready.{Listed};
ghost use Rattle.task.specs.Walk.{closed_from};
ghost use Rattle.task.specs.Rest.{judged_by, file_by, rest_of};
ghost use Rattle.task.specs.Answer.{JudgedInto};

use limits::ATOM_WORDS;
use number::{Fault, Reason};
use pairs::Tabled;
use reader::Header;

// Reads so many operators.
pub fn operators_at(bytes: &[u8], at: usize, count: usize, sizes: &[u64]) -> Result<usize, Fault>
    requires { length sizes.now ≤ most_variables }
    ensures { result ≡ place_of (operators_of sizes.now count bytes.now at) }
{
    let mut next = at;
    for _ in 0..count {
        let read = operator::read_operator(bytes, next, sizes)?;
        next = read.next;
    }
    Ok(next)
}

// Whether the list is closed under each of so many operators, as far as they can be read: a walk over the operators that are not idle, and for each over the
// listed pairs, left by its label at the first that is unclosed, as document 01 asks.
pub fn are_closed(bytes: &[u8], at: usize, count: usize, sizes: &[u64], pairs: &[u64]) -> bool
    requires { Listed sizes.now pairs.now }
    ensures { result ≡ closed_from sizes.now (has pairs.now) count bytes.now at }
{
    let end = numbering::features(sizes);
    let mut possible = [0u64; ATOM_WORDS];
    let mut closed = true;
    let mut next = at;
    'walk: for judged in 0..count {
        let Ok(read) = operator::read_operator(bytes, next, sizes) else {
            break 'walk;
        };
        let entries = read.operator.entries();
        pairs::fill_possible(sizes, pairs, &entries, &mut possible);
        let tabled = Tabled {
            sizes,
            pairs,
            entries: &entries,
            possible: &possible,
        };
        if !tabled.is_idle() {
            let mut listed = pairs::first_pair(sizes, pairs, end);
            while let Some(pair) = listed {
                if tabled.is_unclosed(pair) {
                    closed = false;
                    break 'walk;
                }
                listed = pairs::next_pair(sizes, pairs, end, pair);
            }
        }
        next = read.next;
    }
    closed
}

// Judges what stands behind the header: the operators, that nothing follows, and, if the file is judged wholly, the start and last whether the list is closed.
fn judge_rest(
    bytes: &[u8],
    at: usize,
    count: usize,
    sizes: &[u64],
    start: &[u64],
    pairs: &[u64],
    wholly: bool,
) -> Result<usize, Fault>
    requires { Listed sizes.now pairs.now × State sizes.now start.now }
    ensures { result ≡ place_of (rest_of wholly sizes.now (has pairs.now) start.now count bytes.now at) }
{
    let next = operators_at(bytes, at, count, sizes)?;
    if next < bytes.len() {
        return Err(Fault(Reason::LeftOver, next));
    }
    if !wholly {
        return Ok(next);
    }
    if pairs::holds(sizes, pairs, start) {
        return Err(Fault(Reason::Held, 0));
    }
    if !are_closed(bytes, at, count, sizes, pairs) {
        return Err(Fault(Reason::Unclosed, 0));
    }
    Ok(next)
}

// Judges what stands behind the mark of a task file of a kind, wholly or up to 5: its counts and the place of its first operator. The header of an accepted one is left in words
// that are all 0.
fn judge_parts(
    bytes: &[u8],
    at: usize,
    gapped: bool,
    wholly: bool,
    words: &mut [u64],
) -> Result<Header, Fault>
    requires { (slots_at most_variables most_features ≤ length words.old) × (words.old ≡ replicate (length words.old) 0) }
    ensures { JudgedInto (judged_by (kind_if gapped) wholly bytes.now at) bytes.now words.old result words.new }
{
    let header = reader::read_header(bytes, at, gapped, &mut *words)?;
    let v = header.variables;
    let n = header.features;
    judge_rest(
        bytes,
        header.next,
        header.operators,
        layout::sizes(words, v),
        layout::start(words, v, n),
        layout::pairs(words, v, n),
        wholly,
    )?;
    Ok(header)
}

// Judges a task file of a kind, wholly or up to 5, and leaves the header of an accepted one in words that are all 0.
fn judge_by(bytes: &[u8], gapped: bool, wholly: bool, words: &mut [u64]) -> Result<Header, Fault>
    requires { (slots_at most_variables most_features ≤ length words.old) × (words.old ≡ replicate (length words.old) 0) }
    ensures { JudgedInto (file_by (kind_if gapped) wholly bytes.now) bytes.now words.old result words.new }
{
    let at = reader::read_mark(bytes, 0, gapped)?;
    judge_parts(bytes, at, gapped, wholly, words)
}

// Judges a task file of a kind wholly, and leaves the header of an accepted one in words that are all 0.
pub fn judge_as(bytes: &[u8], gapped: bool, words: &mut [u64]) -> Result<Header, Fault>
    requires { (slots_at most_variables most_features ≤ length words.old) × (words.old ≡ replicate (length words.old) 0) }
    ensures { JudgedInto (judged_as (kind_if gapped) bytes.now) bytes.now words.old result words.new }
{
    judge_by(bytes, gapped, true, words)
}

// Judges a task file of either kind wholly, and leaves the header of an accepted one in words that are all 0.
pub fn judge(bytes: &[u8], words: &mut [u64]) -> Result<Header, Fault>
    requires { (slots_at most_variables most_features ≤ length words.old) × (words.old ≡ replicate (length words.old) 0) }
    ensures { JudgedInto (judged_task bytes.now) bytes.now words.old result words.new }
{
    judge_by(bytes, number::is_gapped(bytes), true, words)
}

// Judges a task file of either kind up to 5 and no further, so that its listed pairs may be any, and leaves the header of an accepted one in words that are all 0.
pub fn read(bytes: &[u8], words: &mut [u64]) -> Result<Header, Fault>
    requires { (slots_at most_variables most_features ≤ length words.old) × (words.old ≡ replicate (length words.old) 0) }
    ensures { JudgedInto (task_of bytes.now 0) bytes.now words.old result words.new }
{
    judge_by(bytes, number::is_gapped(bytes), false, words)
}
