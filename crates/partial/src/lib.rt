// Reads what stands before the operators of a partial task file into words that are laid out as the front of a workspace, by the file's own sizes.

#![tactic(auto)]

ghost use Rattle.std.specs.Prelude.{◌≡◌, ◌≤◌, length, replicate};
ghost use Rattle.meaning.specs.Limits.{most_variables, most_partial_size, most_features};
ghost use Rattle.meaning.specs.Feature.{features};
ghost use Rattle.meaning.specs.Workspace.{goal_at, pairs_at, slots_at};
ghost use Rattle.meaning.specs.Partial.{built_sizes, goal_of};
ghost use Rattle.number.specs.Answers.{number_of};
ghost use Rattle.layout.specs.Parts.{sizes_part, goal_part};
ghost use Rattle.reader.specs.Header.{Within};
ghost use Rattle.reader.specs.Answer.{written, begun, ReadsInto};
ghost use Rattle.reader.specs.Front.{state_words, HeaderInto};
ghost use Rattle.partial.specs.Front.{marked_of, partial_states_of, partial_front_of};
ghost use Rattle.partial.specs.Goal.{value_by};

use limits::{LEAST_PARTIAL_SIZE, MOST_PARTIAL_SIZE, MOST_VARIABLES, SIZES_AT};
use number::{Fault, Number, Reason};
use reader::Header;

// The first number that is no mark.
const MARK_END: usize = 2;

// N of the built task, by the file's own sizes.
pub fn built_features(sizes: &[u64]) -> usize
    requires { Within most_partial_size sizes.now }
    ensures { result ≡ features (built_sizes sizes.now) }
{
    let v = sizes.len();
    let mut wider = [0u64; MOST_VARIABLES];
    renumbering::widen(sizes, &mut wider[..v]);
    numbering::features(&wider[..v])
}

// Reads sizes, marks and start; the marks go where the goal will stand.
fn read_marked(bytes: &[u8], at: usize, header: &mut [u64]) -> Result<usize, Fault>
    requires { pairs_at most_variables ≤ length header.old }
    ensures { ReadsInto (marked_of bytes.now at) (λ marked. begun header.old (state_words marked)) result header.new }
{
    let next = reader::read_limited(
        bytes,
        at,
        &mut *header,
        LEAST_PARTIAL_SIZE,
        MOST_PARTIAL_SIZE,
        built_features,
    )?;
    let v = header[0] as usize;
    let start = layout::start_at(v);
    let goal = layout::goal_at(v);
    let after = reader::items_below(
        bytes,
        next,
        &mut *header,
        goal,
        v,
        0,
        MARK_END,
        Reason::Range,
    )?;
    reader::items_at(bytes, after, header, SIZES_AT, start, v, 0, Reason::Range)
}

// The goal value of a variable by its mark: a value below its size is read where it is named; else it is the size, and nothing is read.
fn value_at(bytes: &[u8], at: usize, size: usize, mark: u64) -> Result<Number, Fault>
    ensures { number_of result ≡ value_by size mark bytes.now at }
{
    if mark == 1 {
        return number::item_at(bytes, at, 0, size, Reason::Range);
    }
    Ok(Number {
        value: size,
        next: at,
    })
}

// Reads the goal of v variables over their marks.
fn read_goal(bytes: &[u8], at: usize, header: &mut [u64], v: usize) -> Result<usize, Fault>
    requires { (v ≤ most_variables) × (pairs_at v ≤ length header.old) }
    ensures { ReadsInto (goal_of (sizes_part v header.old) (goal_part v header.old) bytes.now at) (written header.old (goal_at v)) result header.new }
{
    let goal = layout::goal_at(v);
    let mut next = at;
    for i in 0..v {
        let size = header[SIZES_AT + i] as usize;
        let number = value_at(bytes, next, size, header[goal + i])?;
        header[goal + i] = number.value as u64;
        next = number.next;
    }
    Ok(next)
}

// Reads sizes, marks, start and goal.
fn read_states(bytes: &[u8], at: usize, header: &mut [u64]) -> Result<usize, Fault>
    requires { pairs_at most_variables ≤ length header.old }
    ensures { ReadsInto (partial_states_of bytes.now at) (λ states. begun header.old (state_words states)) result header.new }
{
    let next = read_marked(bytes, at, &mut *header)?;
    let v = header[0] as usize;
    read_goal(bytes, next, header, v)
}

// Reads what stands before the operators of a partial task file, from a place on, into words that are all 0. Two lines as in `reader::read_header`: one
// function that takes `read_states` as a parameter would be no plainer, since its contract would have to speak of the words that a parameter leaves.
pub fn read_front(bytes: &[u8], at: usize, header: &mut [u64]) -> Result<Header, Fault>
    requires { (slots_at most_variables most_features ≤ length header.old) × (header.old ≡ replicate (length header.old) 0) }
    ensures { HeaderInto (partial_front_of bytes.now at) header.old result header.new }
{
    let next = read_states(bytes, at, &mut *header)?;
    reader::read_behind(bytes, next, false, header)
}
