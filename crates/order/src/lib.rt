// Judges a partial task file: its first fault in the order of the papers, or that it is accepted, with the header of the built task.

#![tactic(auto)]

ghost use Rattle.std.specs.Prelude.{◌≡◌, List, ℕ, ◌≤◌, length, replicate};
ghost use Rattle.meaning.specs.Limits.{most_variables, most_features};
ghost use Rattle.meaning.specs.Task.{State};
ghost use Rattle.meaning.specs.Workspace.{slots_at, has};
ghost use Rattle.pairs.specs.Ready.{Listed};
ghost use Rattle.partial.specs.Front.{partial_front_of};
ghost use Rattle.task.specs.Answer.{FrontedAs};
ghost use Rattle.order.specs.Answer.{PartialInto};
ghost use Rattle.order.specs.Last.{kept_of, last_of};
ghost use Rattle.order.specs.Whole.{Whole};

use limits::HEADER_WORDS;
use number::{Fault, NUMBER_END, Reason};
use reader::Header;

// What an accepted partial task file is judged to be: the header of the built task with the file's own operators, and how many forgetting ones are kept.
#[derive(Clone, Copy)]
pub struct Judged {
    pub header: Header,
    pub kept: usize,
}

// Judges the built task by the parts of its header, and the file's operators: how many forgetting ones it keeps; too many, a start that holds a pair, and
// an operator under which the list is not closed are faults.
fn judge_built(
    bytes: &[u8],
    at: usize,
    count: usize,
    lean: bool,
    sizes: &[u64],
    start: &[u64],
    goal: &[u64],
    pairs: &[u64],
) -> Result<usize, Fault>
    requires { Listed sizes.now pairs.now × State sizes.now start.now × State sizes.now goal.now }
    ensures { kept_of at result ≡ last_of sizes.now (has pairs.now) start.now goal.now lean count bytes.now at }
{
    let kept = forgetting::count_kept(sizes, pairs, goal, lean);
    if NUMBER_END - kept <= count {
        return Err(Fault(Reason::Outgrown, 0));
    }
    if pairs::holds(sizes, pairs, start) {
        return Err(Fault(Reason::Held, 0));
    }
    if !task::are_closed(bytes, at, count, sizes, pairs) {
        return Err(Fault(Reason::Unclosed, 0));
    }
    Ok(kept)
}

// Builds the header of a partial file that was read wholly, whose own front is in words, and judges the built task.
fn judge_whole(
    bytes: &[u8],
    front: Header,
    own: &[u64],
    lean: bool,
    words: &mut [u64],
) -> Result<Judged, Fault>
    requires { Whole bytes.now own.now front.variables front.features front.operators front.next × (slots_at most_variables most_features ≤ length words.old) × (words.old ≡ replicate (length words.old) 0) }
    ensures { PartialInto lean bytes.now words.old result words.new }
{
    let v = front.variables;
    let n = renumbering::build_header(own, v, front.features, &mut *words);
    let kept = judge_built(
        bytes,
        front.next,
        front.operators,
        lean,
        layout::sizes(words, v),
        layout::start(words, v, n),
        layout::goal(words, v, n),
        layout::pairs(words, v, n),
    )?;
    let header = Header {
        features: n,
        ..front
    };
    Ok(Judged { header, kept })
}

// Judges what stands behind the front of a partial file: the operators, that nothing follows, and then the built task.
fn judge_rest(
    bytes: &[u8],
    front: Header,
    own: &[u64],
    lean: bool,
    words: &mut [u64],
) -> Result<Judged, Fault>
    requires { ((zeros : List ℕ) × FrontedAs (partial_front_of bytes.now 0) zeros own.now front.variables front.features front.operators front.next)
        × (slots_at most_variables most_features ≤ length words.old) × (words.old ≡ replicate (length words.old) 0) }
    ensures { PartialInto lean bytes.now words.old result words.new }
{
    let sizes = layout::sizes(own, front.variables);
    let next = task::operators_at(bytes, front.next, front.operators, sizes)?;
    if next < bytes.len() {
        return Err(Fault(Reason::LeftOver, next));
    }
    judge_whole(bytes, front, own, lean, words)
}

// Judges a partial task file, and leaves the header of an accepted one's built task in words that are all 0.
pub fn judge(bytes: &[u8], lean: bool, words: &mut [u64]) -> Result<Judged, Fault>
    requires { (slots_at most_variables most_features ≤ length words.old) × (words.old ≡ replicate (length words.old) 0) }
    ensures { PartialInto lean bytes.now words.old result words.new }
{
    let mut own = [0u64; HEADER_WORDS];
    let front = partial::read_front(bytes, 0, &mut own)?;
    judge_rest(bytes, front, &own, lean, words)
}
