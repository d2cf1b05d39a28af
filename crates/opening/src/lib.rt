// Opens a workspace from a task file, or from a partial one.

#![tactic(auto)]

ghost use Rattle.std.specs.Prelude.{◌≡◌, false, ℕ, ◌-◌, ◌≤◌, length, replicate, drop};
ghost use mathlib.Core.List.{List, ◌++◌, foldl};
ghost use Rattle.meaning.specs.Limits.{most_variables};
ghost use Rattle.meaning.specs.Number.{Read};
ghost use Rattle.meaning.specs.Task.{State, Task};
ghost use Rattle.meaning.specs.File.{operator_of};
ghost use Rattle.meaning.specs.Workspace.{has};
ghost use Rattle.meaning.specs.Answer.{Opens, OpensAs};
ghost use Rattle.meaning.specs.Partial.{OpensPartial};
ghost use Rattle.number.specs.Answers.{place_of};
ghost use Rattle.layout.specs.Parts.{sizes_part};
ghost use Rattle.pairs.specs.Ready.{Listed};
ghost use Rattle.forgetting.specs.Kept.{kept_in};
ghost use Rattle.condition.specs.Slotted.{with_rows};
ghost use Rattle.condition.specs.Later.{Kept, settled_as};
ghost use Rattle.order.specs.With.{following, KnownWith};
ghost use Rattle.opening.specs.Answer.{opened_of};
ghost use Rattle.opening.specs.Adding.{Workable, Sized, added_from};
ghost use Rattle.opening.specs.Later.{Blank};

use limits::{HEADER_WORDS, MOST_WORDS};
use number::{Fault, Reason};
use operator::Entries;
use reader::Header;

// Slots are settled once one in so many of all is pending.
const PENDING_SHARE: usize = 32;

// Puts a header in front, and clears the slots behind it.
fn begin(room: &mut [u64], header: &[u64], due: usize)
    requires { (length header.now ≤ due) × (due ≤ length room.old) }
    ensures { room.new ≡ header.now ++ (replicate (due - length header.now) 0 ++ drop due room.old) }
{
    let end = header.len();
    words::copy(&mut room[..end], header);
    words::clear(&mut room[end..due]);
}

// Reads an operator and inserts its rows; nothing is inserted where there is a fault. New slots stay pending. The answer is the place after it.
fn add_operator(
    bytes: &[u8],
    at: usize,
    room: &mut [u64],
    v: usize,
    n: usize,
    full: &mut [u64],
    pending: &mut [u64],
) -> Result<usize, Fault>
    requires { Kept v n full.old pending.old room.old × Workable v n (settled_as v n pending.old room.old) }
    ensures place { result ≡ place_of (operator_of (sizes_part v (settled_as v n pending.old room.old)) bytes.now at) }
    ensures kept { Kept v n full.new pending.new room.new }
    ensures rows { settled_as v n pending.new room.new ≡ added_from v n 1 bytes.now at (settled_as v n pending.old room.old) }
{
    let read = operator::read_operator(bytes, at, layout::sizes(room, v))?;
    let entries = read.operator.entries();
    condition::add_rows_later(room, v, n, full, pending, &entries);
    Ok(read.next)
}

// Settles the slots where so many are pending that it pays; what they are once settled stays.
fn settle_when_due(room: &mut [u64], v: usize, n: usize, full: &[u64], pending: &mut [u64])
    requires { Kept v n full.now pending.old room.old × (v ≤ most_variables) }
    ensures kept { Kept v n full.now pending.new room.new }
    ensures same { settled_as v n pending.new room.new ≡ settled_as v n pending.old room.old }
{
    if n / PENDING_SHARE <= words::count(pending) {
        condition::settle_rows(room, v, n, full, pending);
    }
}

// Reads so many operators and inserts their rows; the last slots stay pending.
fn add_operators(
    bytes: &[u8],
    at: usize,
    count: usize,
    room: &mut [u64],
    v: usize,
    n: usize,
    full: &mut [u64],
    pending: &mut [u64],
)
    requires { Kept v n full.old pending.old room.old × Workable v n (settled_as v n pending.old room.old) }
    ensures kept { Kept v n full.new pending.new room.new }
    ensures rows { settled_as v n pending.new room.new ≡ added_from v n count bytes.now at (settled_as v n pending.old room.old) }
{
    let mut next = at;
    for _ in 0..count {
        let Ok(after) = add_operator(bytes, next, room, v, n, full, pending) else {
            return;
        };
        settle_when_due(room, v, n, full, pending);
        next = after;
    }
}

// Inserts the rows of the forgetting operators that are kept, by the sizes, pairs and goal of the built task; the last slots stay pending.
fn add_forgettings(
    room: &mut [u64],
    v: usize,
    n: usize,
    full: &mut [u64],
    pending: &mut [u64],
    sizes: &[u64],
    pairs: &[u64],
    goal: &[u64],
)
    requires { Kept v n full.old pending.old room.old × Sized v n sizes.now (settled_as v n pending.old room.old) × Listed sizes.now pairs.now × State sizes.now goal.now }
    ensures kept { Kept v n full.new pending.new room.new }
    ensures rows { settled_as v n pending.new room.new
        ≡ foldl (with_rows v n) (settled_as v n pending.old room.old) (kept_in sizes.now (has pairs.now) goal.now false) }
{
    let mut next = forgetting::next_kept(sizes, pairs, goal, false, 0, 0);
    while let Some(kept) = next {
        let entry = kept.entry(sizes);
        condition::add_rows_later(room, v, n, full, pending, &Entries::one(&entry));
        settle_when_due(room, v, n, full, pending);
        next = forgetting::next_kept(sizes, pairs, goal, false, kept.variable, kept.value + 1);
    }
}

// Inserts the rows of a task's operators into empty slots, those that are read and, if the task forgets, then the kept forgetting ones, and settles these.
fn add_task(
    bytes: &[u8],
    header: Header,
    forgets: bool,
    room: &mut [u64],
    full: &mut [u64],
    pending: &mut [u64],
    sizes: &[u64],
    pairs: &[u64],
    goal: &[u64],
)
    requires { Blank header.variables header.features full.old pending.old room.old × Sized header.variables header.features sizes.now room.old
        × Listed sizes.now pairs.now × State sizes.now goal.now }
    ensures { room.new ≡ foldl (with_rows header.variables header.features)
        (added_from header.variables header.features header.operators bytes.now header.next room.old) (following sizes.now (has pairs.now) goal.now forgets) }
{
    let v = header.variables;
    let n = header.features;
    add_operators(
        bytes,
        header.next,
        header.operators,
        room,
        v,
        n,
        full,
        pending,
    );
    if forgets {
        add_forgettings(room, v, n, full, pending, sizes, pairs, goal);
    }
    condition::settle_rows(room, v, n, full, pending);
}

// Opens a workspace of an accepted task, by its header and the words with its parts. The answer is the number of words due.
fn open_accepted(
    bytes: &[u8],
    header: Header,
    parts: &[u64],
    forgets: bool,
    room: &mut [u64],
) -> Result<usize, Reason>
    requires { (judging : Read Task) × (old : List ℕ) × KnownWith judging bytes.now old parts.now header forgets }
    ensures { (judging : Read Task) (old : List ℕ) → KnownWith judging bytes.now old parts.now header forgets
        → OpensAs judging room.old (record { answer = opened_of result; lent = room.new }) }
{
    let v = header.variables;
    let n = header.features;
    let places = layout::places_for(v, n);
    if room.len() < places.end {
        return Err(Reason::Small);
    }
    begin(room, &parts[..places.slots], places.end);
    let w = layout::words_for(n);
    let mut full = [0u64; MOST_WORDS];
    let mut pending = [0u64; MOST_WORDS];
    add_task(
        bytes,
        header,
        forgets,
        room,
        &mut full[..w],
        &mut pending[..w],
        layout::sizes(parts, v),
        layout::pairs(parts, v, n),
        layout::goal(parts, v, n),
    );
    Ok(places.end)
}

// Opens a workspace from a task file in lent words.
pub fn open(task: &[u8], room: &mut [u64]) -> Result<usize, Reason>
    ensures { Opens task.now room.old (record { answer = opened_of result; lent = room.new }) }
{
    let mut parts = [0u64; HEADER_WORDS];
    let header = task::judge(task, &mut parts)?;
    open_accepted(task, header, &parts, false, room)
}

// Opens a workspace of the task that is built for a partial task file, in lent words.
pub fn open_partial(partial: &[u8], room: &mut [u64]) -> Result<usize, Reason>
    ensures { OpensPartial partial.now room.old (record { answer = opened_of result; lent = room.new }) }
{
    let mut parts = [0u64; HEADER_WORDS];
    let judged = order::judge(partial, false, &mut parts)?;
    open_accepted(partial, judged.header, &parts, true, room)
}
