// Builds the task of a partial file: each variable gets the value "unknown", and forgetting operators lead to it.

#![tactic(auto)]

ghost use Rattle.std.specs.Prelude.{◌≡◌, List, ◌++◌, ℕ, ◌+◌, ◌<◌, ◌≤◌, length, take, drop, Ok};
ghost use Rattle.meaning.specs.Limits.{number_end};
ghost use Rattle.meaning.specs.Task.{State};
ghost use Rattle.meaning.specs.Answer.{delivered};
ghost use Rattle.meaning.specs.Partial.{BuildsBy, BuildsPartial, BuildsPartialLean};
ghost use Rattle.theory.specs.PartialParts.{out_for};
ghost use Rattle.pairs.specs.Ready.{Listed};
ghost use Rattle.order.specs.Answer.{PartialInto};
ghost use Rattle.writer.specs.Answer.{outcome_of};
ghost use Rattle.completing.specs.Parts.{kept_bytes, operators_bytes, BuiltParts, built_bytes};

use limits::HEADER_WORDS;
use meaning::Entry;
use number::Reason;
use order::Judged;

// Writes the forgetting operators that are kept, by variable and value.
fn write_kept(
    room: &mut [u8],
    at: usize,
    sizes: &[u64],
    pairs: &[u64],
    goal: &[u64],
    lean: bool,
) -> usize
    requires { Listed sizes.now pairs.now × State sizes.now goal.now × (at + length (kept_bytes sizes.now pairs.now goal.now lean) ≤ length room.old) }
    ensures after { result ≡ at + length (kept_bytes sizes.now pairs.now goal.now lean) }
    ensures written { room.new
        ≡ take at room.old ++ (kept_bytes sizes.now pairs.now goal.now lean ++ drop result room.old) }
{
    let mut end = at;
    let mut next = forgetting::next_kept(sizes, pairs, goal, lean, 0, 0);
    while let Some(kept) = next {
        end = writer::write_operator(room, end, &[kept.entry(sizes)]);
        next = forgetting::next_kept(sizes, pairs, goal, lean, kept.variable, kept.value + 1);
    }
    end
}

// Writes the operators with their count: the file's as they stand there, then the forgetting ones.
fn write_operators(
    room: &mut [u8],
    at: usize,
    count: usize,
    own: &[u8],
    sizes: &[u64],
    pairs: &[u64],
    goal: &[u64],
    lean: bool,
) -> usize
    requires { (count < number_end) × Listed sizes.now pairs.now × State sizes.now goal.now
        × (at + length (operators_bytes count own.now sizes.now pairs.now goal.now lean) ≤ length room.old) }
    ensures after { result ≡ at + length (operators_bytes count own.now sizes.now pairs.now goal.now lean) }
    ensures written { room.new
        ≡ take at room.old ++ (operators_bytes count own.now sizes.now pairs.now goal.now lean ++ drop result room.old) }
{
    let second = number::write_number(room, at, count);
    let third = writer::write_bytes(room, second, own);
    write_kept(room, third, sizes, pairs, goal, lean)
}

// Writes the file of a built task from its parts, if the room is long enough for all of it. Each number of a forgetting operator is below 128, so all of them
// are as long as one.
fn write_built(
    own: &[u8],
    count: usize,
    kept: usize,
    sizes: &[u64],
    start: &[u64],
    goal: &[u64],
    pairs: &[u64],
    lean: bool,
    room: &mut [u8],
) -> Result<usize, Reason>
    requires { BuiltParts count kept sizes.now start.now goal.now pairs.now lean }
    ensures { outcome_of result room.new
        ≡ delivered (built_bytes count kept own.now sizes.now start.now goal.now pairs.now lean) room.old }
{
    let front = writer::front_width(false, sizes, start, goal, pairs);
    let entry = Entry {
        variable: 0,
        before: 0,
        after: 1,
    };
    let each = writer::operator_width(&[entry]);
    let operators = number::width(count + kept) + own.len() + each * kept;
    if room.len() < front + operators {
        return Err(Reason::Small);
    }
    let next = writer::write_front(room, false, sizes, start, goal, pairs);
    Ok(write_operators(room, next, count + kept, own, sizes, pairs, goal, lean))
}

// Writes the built task of an accepted partial file, by what its judge answers and the words with the header's parts.
fn complete(
    partial: &[u8],
    judged: Judged,
    parts: &[u64],
    lean: bool,
    room: &mut [u8],
) -> Result<usize, Reason>
    requires { (old : List ℕ) × PartialInto lean partial.now old (Ok judged) parts.now }
    ensures { BuildsBy (out_for lean) partial.now room.old (outcome_of result room.new) }
{
    let Judged { header, kept } = judged;
    let v = header.variables;
    let n = header.features;
    write_built(
        &partial[header.next..],
        header.operators,
        kept,
        layout::sizes(parts, v),
        layout::start(parts, v, n),
        layout::goal(parts, v, n),
        layout::pairs(parts, v, n),
        lean,
        room,
    )
}

// Builds the task of a partial file: the file is judged wholly, then 8.
fn build(partial: &[u8], lean: bool, room: &mut [u8]) -> Result<usize, Reason>
    ensures { BuildsBy (out_for lean) partial.now room.old (outcome_of result room.new) }
{
    let mut parts = [0u64; HEADER_WORDS];
    let judged = order::judge(partial, lean, &mut parts)?;
    complete(partial, judged, &parts, lean, room)
}

// Builds the task of a partial file, with what section 5.2 of source 002 permits left out.
pub fn build_partial(partial: &[u8], room: &mut [u8]) -> Result<usize, Reason>
    ensures { BuildsPartial partial.now room.old (outcome_of result room.new) }
{
    build(partial, false, room)
}

// Builds the lean task of a partial file: no value of a variable that is named is forgotten.
pub fn build_partial_lean(partial: &[u8], room: &mut [u8]) -> Result<usize, Reason>
    ensures { BuildsPartialLean partial.now room.old (outcome_of result room.new) }
{
    build(partial, true, room)
}
