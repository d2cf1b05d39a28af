// One operator's condition: whether weights allow it, and its rows inserted into a workspace's slots. The difference of two states.

#![tactic(auto)]

ghost use Rattle.std.specs.Prelude.{◌≡◌, true, false, List, ℕ, ◌*◌, ◌<◌, ◌≤◌, length, replicate};
ghost use Rattle.meaning.specs.Sets.{Set};
ghost use Rattle.meaning.specs.Limits.{word_bits, most_variables};
ghost use Rattle.meaning.specs.Task.{State, applies, size};
ghost use Rattle.meaning.specs.Feature.{atoms, features};
ghost use Rattle.meaning.specs.File.{InLimits};
ghost use Rattle.meaning.specs.Pair.{idle};
ghost use Rattle.meaning.specs.Workspace.{words_for, has, packed};
ghost use Rattle.theory.specs.Given.{Given};
ghost use Rattle.theory.specs.Rows.{base, allowed};
ghost use Rattle.theory.specs.InsertAll.{insert_all};
ghost use Rattle.theory.specs.Finder.{difference};
ghost use Rattle.pairs.specs.Ready.{Ready, HoldsPossible};
ghost use Rattle.words.specs.Toggled.{toggled_all};
ghost use Rattle.rows.specs.Moves.{Room};
ghost use Rattle.slots.specs.Waiting.{Waiting, settled_in};
ghost use Rattle.layout.specs.Parts.{sizes_part};
ghost use Rattle.condition.specs.Ends.{true_atoms, true_pairs_of, true_pairs, true_features};
ghost use Rattle.condition.specs.Walk.{Prepared, Walked, rows_by, rows_after, all_even};
ghost use Rattle.condition.specs.Slotted.{Opened, with_rows};
ghost use Rattle.condition.specs.Later.{Kept, Rowed, settled_as};

use limits::{ATOM_WORDS, MOST_VARIABLES, MOST_WORDS};
use operator::Entries;
use pairs::Tabled;
use rows::Value;

// Toggles the atoms of a state.
fn toggle_atoms(sizes: &[u64], state: &[u64], row: &mut [u64])
    requires { Room sizes.now row.old × State sizes.now state.now }
    ensures { row.new ≡ toggled_all row.old (true_atoms sizes.now state.now) }
{
    for i in 0..sizes.len() {
        words::toggle(row, numbering::single(sizes, i, state[i] as usize));
    }
}

// Toggles the pairs of variable j's atom with those of the variables before it.
fn toggle_pairs_of(sizes: &[u64], state: &[u64], j: usize, row: &mut [u64])
    requires { Room sizes.now row.old × State sizes.now state.now × (j < length sizes.now) }
    ensures { row.new ≡ toggled_all row.old (true_pairs_of sizes.now state.now j) }
{
    let y = state[j] as usize;
    for i in 0..j {
        words::toggle(row, numbering::both(sizes, i, state[i] as usize, j, y));
    }
}

// Toggles the pairs of a state's atoms.
fn toggle_pairs(sizes: &[u64], state: &[u64], row: &mut [u64])
    requires { Room sizes.now row.old × State sizes.now state.now }
    ensures { row.new ≡ toggled_all row.old (true_pairs sizes.now state.now) }
{
    for j in 0..sizes.len() {
        toggle_pairs_of(sizes, state, j, row);
    }
}

// Toggles the features that are true in a state.
fn toggle_true(sizes: &[u64], state: &[u64], row: &mut [u64])
    requires { Room sizes.now row.old × State sizes.now state.now }
    ensures { row.new ≡ toggled_all row.old (true_features sizes.now state.now) }
{
    toggle_atoms(sizes, state, row);
    toggle_pairs(sizes, state, row);
}

// The features that are true in one of two states and not in the other.
pub fn fill_difference(sizes: &[u64], start: &[u64], goal: &[u64], row: &mut [u64])
    requires { InLimits sizes.now × State sizes.now start.now × State sizes.now goal.now × (row.old ≡ replicate (words_for (features sizes.now)) 0) }
    ensures { row.new ≡ packed (features sizes.now) (difference sizes.now start.now goal.now) }
{
    toggle_true(sizes, start, row);
    toggle_true(sizes, goal, row);
}

// Makes the table of the operator's possible atoms and its base state, and says whether it is idle.
fn prepare(
    sizes: &[u64],
    pairs: &[u64],
    entries: &Entries,
    possible: &mut [u64],
    state: &mut [usize],
) -> bool
    requires { Ready sizes.now pairs.now entries.now × (atoms sizes.now ≤ word_bits * length possible.old) × (length state.old ≡ length sizes.now) }
    ensures { (result ≡ idle sizes.now (has pairs.now) entries.now)
        × HoldsPossible sizes.now (has pairs.now) entries.now possible.new
        × (state.new ≡ base sizes.now (has pairs.now) entries.now) }
{
    pairs::fill_possible(sizes, pairs, entries, possible);
    rows::fill_base(sizes, entries, possible, state);
    Tabled {
        sizes,
        pairs,
        entries,
        possible,
    }
    .is_idle()
}

// Begins a walk over an operator's rows: the first row is the change at the base state. Where a row is at hand, the answer is the value from which on the next
// one is looked for.
fn first_row(sizes: &[u64], entries: &Entries, state: &[usize], row: &mut [u64]) -> Option<Value>
    requires { Given sizes.now entries.now × State sizes.now state.now
        × (applies entries.now state.now ≡ true) × (length row.old ≡ words_for (features sizes.now)) }
    ensures { (possible : List ℕ) → Walked sizes.now entries.now possible state.now
        row.new result (rows_by sizes.now entries.now possible state.now) }
{
    words::clear(row);
    rows::base_row(sizes, entries, state, row);
    Some(Value {
        variable: 0,
        value: 0,
    })
}

// Goes on to the next row; the row stays as it is where there is none.
fn next_row(
    sizes: &[u64],
    entries: &Entries,
    possible: &[u64],
    state: &[usize],
    from: Value,
    row: &mut [u64],
) -> Option<Value>
    requires { ((pairs : Set) × Prepared sizes.now pairs entries.now possible.now state.now) × (from.value ≤ size sizes.now from.variable)
        × (length row.old ≡ words_for (features sizes.now)) }
    ensures { Walked sizes.now entries.now possible.now state.now
        row.new result (rows_after sizes.now entries.now possible.now state.now from) }
{
    let found = rows::next_apart(sizes, possible, state, from.variable, from.value)?;
    words::clear(row);
    rows::apart_row(sizes, entries, state, found.variable, found.value, row);
    Some(Value {
        variable: found.variable,
        value: found.value + 1,
    })
}

// Whether the weights meet each row evenly, from the first to the last.
fn all_even(
    sizes: &[u64],
    entries: &Entries,
    possible: &[u64],
    state: &[usize],
    weights: &[u64],
    row: &mut [u64],
) -> bool
    requires { ((pairs : Set) × Prepared sizes.now pairs entries.now possible.now state.now)
        × (length weights.now ≡ words_for (features sizes.now)) × ((f : ℕ) → features sizes.now ≤ f → has weights.now f ≡ false)
        × (length row.old ≡ words_for (features sizes.now)) }
    ensures { result ≡ all_even (features sizes.now) (has weights.now)
        (rows_by sizes.now entries.now possible.now state.now) }
{
    let mut walk = first_row(sizes, entries, state, row);
    while let Some(from) = walk {
        if words::odd_shared(weights, row) {
            return false;
        }
        walk = next_row(sizes, entries, possible, state, from, row);
    }
    true
}

// Whether the weights meet the operator's rows evenly; an idle one has none. The table, the base state and the row have their room here.
fn meets_rows(
    sizes: &[u64],
    pairs: &[u64],
    entries: &Entries,
    weights: &[u64],
    possible: &mut [u64],
    state: &mut [usize],
    row: &mut [u64],
) -> bool
    requires { Ready sizes.now pairs.now entries.now × (length weights.now ≡ words_for (features sizes.now))
        × ((f : ℕ) → features sizes.now ≤ f → has weights.now f ≡ false) × (atoms sizes.now ≤ word_bits * length possible.old)
        × (length state.old ≡ length sizes.now) × (length row.old ≡ words_for (features sizes.now)) }
    ensures { result ≡ allowed sizes.now (has pairs.now) (has weights.now) entries.now }
{
    if prepare(sizes, pairs, entries, possible, state) {
        return true;
    }
    all_even(sizes, entries, possible, state, weights, row)
}

// Whether the weights meet the operator's condition.
pub fn is_allowed(sizes: &[u64], pairs: &[u64], entries: &Entries, weights: &[u64]) -> bool
    requires { Ready sizes.now pairs.now entries.now × (length weights.now ≡ words_for (features sizes.now))
        × ((f : ℕ) → features sizes.now ≤ f → has weights.now f ≡ false) }
    ensures { result ≡ allowed sizes.now (has pairs.now) (has weights.now) entries.now }
{
    let v = sizes.len();
    let w = weights.len();
    let mut possible = [0u64; ATOM_WORDS];
    let mut state = [0usize; MOST_VARIABLES];
    let mut row = [0u64; MOST_WORDS];
    meets_rows(
        sizes,
        pairs,
        entries,
        weights,
        &mut possible,
        &mut state[..v],
        &mut row[..w],
    )
}

// Inserts each row into an area of n slots, from the first to the last.
fn insert_rows(
    sizes: &[u64],
    entries: &Entries,
    possible: &[u64],
    state: &[usize],
    area: &mut [u64],
    n: usize,
    full: &mut [u64],
    pending: &mut [u64],
    row: &mut [u64],
)
    requires { ((pairs : Set) × Prepared sizes.now pairs entries.now possible.now state.now)
        × (n ≡ features sizes.now) × Waiting n full.old pending.old area.old × (length row.old ≡ words_for (features sizes.now)) }
    ensures waiting { Waiting n full.new pending.new area.new }
    ensures rows { settled_in n pending.new area.new ≡ insert_all n (settled_in n pending.old area.old)
        (rows_by sizes.now entries.now possible.now state.now) }
{
    let mut walk = first_row(sizes, entries, state, row);
    while let Some(from) = walk {
        slots::insert(area, n, full, pending, row);
        walk = next_row(sizes, entries, possible, state, from, row);
    }
}

// Inserts the operator's rows; an idle one has none. The sizes are copied, so that only the slot area, which starts inside the workspace, is lent for writing. The
// sizes, the table, the base state and the row have their room here.
fn insert_condition(
    workspace: &mut [u64],
    v: usize,
    n: usize,
    full: &mut [u64],
    pending: &mut [u64],
    entries: &Entries,
    sizes: &mut [u64],
    possible: &mut [u64],
    state: &mut [usize],
    row: &mut [u64],
)
    requires { Kept v n full.old pending.old workspace.old × Rowed v n workspace.old entries.now × (length sizes.old ≡ v)
        × (atoms (sizes_part v workspace.old) ≤ word_bits * length possible.old) × (length state.old ≡ v) × (length row.old ≡ words_for n) }
    ensures kept { Kept v n full.new pending.new workspace.new }
    ensures rows { settled_as v n pending.new workspace.new
        ≡ with_rows v n (settled_as v n pending.old workspace.old) entries.now }
{
    words::copy(sizes, layout::sizes(workspace, v));
    if prepare(
        sizes,
        layout::pairs(workspace, v, n),
        entries,
        possible,
        state,
    ) {
        return;
    }
    let places = layout::places_for(v, n);
    let slots = places.slots;
    let end = places.end;
    insert_rows(
        sizes,
        entries,
        possible,
        state,
        &mut workspace[slots..end],
        n,
        full,
        pending,
        row,
    );
}

// Inserts the operator's rows into the slots of a workspace for v variables and n features; new slots stay pending.
pub fn add_rows_later(
    workspace: &mut [u64],
    v: usize,
    n: usize,
    full: &mut [u64],
    pending: &mut [u64],
    entries: &Entries,
)
    requires { Kept v n full.old pending.old workspace.old × Rowed v n workspace.old entries.now }
    ensures kept { Kept v n full.new pending.new workspace.new }
    ensures rows { settled_as v n pending.new workspace.new
        ≡ with_rows v n (settled_as v n pending.old workspace.old) entries.now }
{
    let w = layout::words_for(n);
    let mut sizes = [0u64; MOST_VARIABLES];
    let mut possible = [0u64; ATOM_WORDS];
    let mut state = [0usize; MOST_VARIABLES];
    let mut row = [0u64; MOST_WORDS];
    insert_condition(
        workspace,
        v,
        n,
        full,
        pending,
        entries,
        &mut sizes[..v],
        &mut possible,
        &mut state[..v],
        &mut row[..w],
    );
}

// Settles the slots of a workspace, with room for a row.
fn settle_with(
    workspace: &mut [u64],
    v: usize,
    n: usize,
    full: &[u64],
    pending: &mut [u64],
    row: &mut [u64],
)
    requires { Kept v n full.now pending.old workspace.old × (v ≤ most_variables) × (length row.old ≡ words_for n) }
    ensures words { workspace.new ≡ settled_as v n pending.old workspace.old }
    ensures none { pending.new ≡ replicate (words_for n) 0 }
{
    let places = layout::places_for(v, n);
    let slots = places.slots;
    let end = places.end;
    slots::settle(&mut workspace[slots..end], n, full, pending, row);
}

// Settles the slots of a workspace; nothing is pending then.
pub fn settle_rows(workspace: &mut [u64], v: usize, n: usize, full: &[u64], pending: &mut [u64])
    requires { Kept v n full.now pending.old workspace.old × (v ≤ most_variables) }
    ensures words { workspace.new ≡ settled_as v n pending.old workspace.old }
    ensures none { pending.new ≡ replicate (words_for n) 0 }
{
    let w = pending.len();
    let mut row = [0u64; MOST_WORDS];
    settle_with(workspace, v, n, full, pending, &mut row[..w]);
}

// Inserts the operator's rows and settles the slots, with room for the indices of those that are not empty and of those that are pending.
fn add_rows_with(
    workspace: &mut [u64],
    v: usize,
    n: usize,
    full: &mut [u64],
    pending: &mut [u64],
    entries: &Entries,
)
    requires { Opened v n workspace.old entries.now × (length full.old ≡ words_for n) × (pending.old ≡ replicate (words_for n) 0) }
    ensures { workspace.new ≡ with_rows v n workspace.old entries.now }
{
    slots::indices(layout::slots(workspace, v, n), n, full);
    add_rows_later(workspace, v, n, full, pending, entries);
    settle_rows(workspace, v, n, full, pending);
}

// Inserts the operator's rows into the slots of a workspace for v variables and n features.
pub fn add_rows(workspace: &mut [u64], v: usize, n: usize, entries: &Entries)
    requires { Opened v n workspace.old entries.now }
    ensures { workspace.new ≡ with_rows v n workspace.old entries.now }
{
    let w = layout::words_for(n);
    let mut full = [0u64; MOST_WORDS];
    let mut pending = [0u64; MOST_WORDS];
    add_rows_with(workspace, v, n, &mut full[..w], &mut pending[..w], entries);
}
