// The rows of one operator that is not idle, as words: its base state, the change there, and the difference that each other possible value makes.

#![tactic(auto)]

ghost use Rattle.std.specs.Prelude.{◌≡◌, ◌≢◌, true, false, ℕ, ◌*◌, ◌<◌, ◌≤◌, length, replicate};
ghost use Rattle.meaning.specs.Sets.{flat};
ghost use Rattle.meaning.specs.Limits.{word_bits};
ghost use Rattle.meaning.specs.Task.{State, applies, names, size};
ghost use Rattle.meaning.specs.Feature.{atoms, features, single, both};
ghost use Rattle.meaning.specs.File.{InLimits};
ghost use Rattle.meaning.specs.Workspace.{words_for, has, packed};
ghost use Rattle.theory.specs.GridRule.{turns, kinds_of};
ghost use Rattle.theory.specs.Given.{Given};
ghost use Rattle.theory.specs.Rows.{change};
ghost use Rattle.theory.specs.Walk.{walk, entry_at};
ghost use Rattle.numbering.specs.Planes.{Spans};
ghost use Rattle.words.specs.Toggled.{toggled_all};
ghost use Rattle.rows.specs.Moves.{kind_of, atom_of, AtomIn, EntryIn, Room, by_grid};
ghost use Rattle.rows.specs.Change.{moved_both, values_both, beside_features, apart_features, earlier_features, named_features, unnamed_features, difference};
ghost use Rattle.rows.specs.Base.{Least, atoms_at, least_values, with_befores, base_by};
ghost use Rattle.rows.specs.Apart.{wanted_by, wanted_from, values_on};

use meaning::Entry;
use numbering::Plane;
use operator::Entries;

// "kinds are absent, kept, made, used": whether an atom is true before and after.
#[derive(Clone, Copy)]
pub enum Kind {
    Absent,
    Kept,
    Made,
    Used,
}

// "the entry is 1 for made with made, used with used, and kept with made or used either way round; else 0"
const GRID: [[u8; 4]; 4] = [[0, 0, 0, 0], [0, 0, 1, 1], [0, 1, 1, 0], [0, 1, 0, 1]];

// An atom of a variable that goes from one value to another, with its kind.
#[derive(Clone, Copy)]
struct Atom {
    variable: usize,
    value: usize,
    kind: Kind,
}

impl Atom {
    // The atom that an entry keeps.
    fn kept(entry: Entry) -> Atom
        ensures { result ≡ record { variable = entry.variable; value = entry.before; kind = Kind.Kept } }
    {
        Atom {
            variable: entry.variable,
            value: entry.before,
            kind: Kind::Kept,
        }
    }

    // The atom that an entry uses.
    fn used(entry: Entry) -> Atom
        ensures { result ≡ record { variable = entry.variable; value = entry.before; kind = Kind.Used } }
    {
        Atom {
            variable: entry.variable,
            value: entry.before,
            kind: Kind::Used,
        }
    }

    // The atom that an entry makes.
    fn made(entry: Entry) -> Atom
        ensures { result ≡ record { variable = entry.variable; value = entry.after; kind = Kind.Made } }
    {
        Atom {
            variable: entry.variable,
            value: entry.after,
            kind: Kind::Made,
        }
    }
}

// Whether the feature of two atoms of these kinds changes its truth: the first one's row of the grid, the other one's column.
fn turns(a: Kind, b: Kind) -> bool
    ensures { result ≡ turns (kind_of a) (kind_of b) }
{
    GRID[a as usize][b as usize] == 1
}

// Toggles the feature of two atoms where the grid has 1. The plane is that of their variables.
fn toggle_pair(sizes: &[u64], plane: Plane, a: Atom, b: Atom, row: &mut [u64])
    requires { Room sizes.now row.old × AtomIn sizes.now a × AtomIn sizes.now b × (a.variable ≢ b.variable)
        × Spans sizes.now a.variable b.variable (both sizes.now) plane }
    ensures { row.new
        ≡ toggled_all row.old (by_grid sizes.now a.variable (atom_of a) b.variable (atom_of b)) }
{
    if turns(a.kind, b.kind) {
        words::toggle(row, numbering::number(plane, a.value, b.value));
    }
}

// Toggles what an atom changes together with the atoms of another variable.
fn toggle_atom(sizes: &[u64], plane: Plane, a: Atom, to: Entry, row: &mut [u64])
    requires { Room sizes.now row.old × AtomIn sizes.now a × EntryIn sizes.now to × (a.variable ≢ to.variable)
        × Spans sizes.now a.variable to.variable (both sizes.now) plane }
    ensures { row.new
        ≡ toggled_all row.old
        (by_grid sizes.now a.variable (atom_of a) to.variable (kinds_of to.before to.after)) }
{
    if to.before == to.after {
        toggle_pair(sizes, plane, a, Atom::kept(to), row);
    } else {
        toggle_pair(sizes, plane, a, Atom::used(to), row);
        toggle_pair(sizes, plane, a, Atom::made(to), row);
    }
}

// Toggles what two variables change together, in their plane.
fn toggle_in_plane(sizes: &[u64], plane: Plane, of: Entry, to: Entry, row: &mut [u64])
    requires { Room sizes.now row.old × EntryIn sizes.now of × EntryIn sizes.now to × (of.variable ≢ to.variable)
        × Spans sizes.now of.variable to.variable (both sizes.now) plane }
    ensures { row.new ≡ toggled_all row.old (moved_both sizes.now of to) }
{
    if of.before == of.after {
        toggle_atom(sizes, plane, Atom::kept(of), to, row);
    } else {
        toggle_atom(sizes, plane, Atom::used(of), to, row);
        toggle_atom(sizes, plane, Atom::made(of), to, row);
    }
}

// Toggles what two variables change together: named ones as their entries say, an unnamed one as an entry that keeps its value.
fn toggle_moves(sizes: &[u64], of: Entry, to: Entry, row: &mut [u64])
    requires { Room sizes.now row.old × EntryIn sizes.now of × EntryIn sizes.now to × (of.variable ≢ to.variable) }
    ensures { row.new ≡ toggled_all row.old (moved_both sizes.now of to) }
{
    let plane = numbering::plane_of(sizes, of.variable, to.variable);
    toggle_in_plane(sizes, plane, of, to, row);
}

// The entry of a variable that keeps its value.
fn stays(u: usize, y: usize) -> Entry
    ensures { result ≡ record { variable = u; before = y; after = y } }
{
    Entry {
        variable: u,
        before: y,
        after: y,
    }
}

// Toggles what two values of one variable, each kept, change together with another variable. Their features stand in one plane.
fn toggle_values(sizes: &[u64], u: usize, x: usize, y: usize, to: Entry, row: &mut [u64])
    requires { Room sizes.now row.old × EntryIn sizes.now to × (u < length sizes.now) × (x < size sizes.now u) × (y < size sizes.now u)
        × (u ≢ to.variable) }
    ensures { row.new ≡ toggled_all row.old (values_both sizes.now u x y to) }
{
    let plane = numbering::plane_of(sizes, u, to.variable);
    toggle_in_plane(sizes, plane, stays(u, x), to, row);
    toggle_in_plane(sizes, plane, stays(u, y), to, row);
}

// Toggles what an unnamed variable, which keeps its value, changes together with each entry.
fn toggle_beside(sizes: &[u64], entries: &Entries, u: usize, y: usize, row: &mut [u64])
    requires { Given sizes.now entries.now × Room sizes.now row.old
        × (u < length sizes.now) × (y < size sizes.now u) × (names entries.now u ≡ false) }
    ensures { row.new ≡ toggled_all row.old (beside_features sizes.now entries.now u y) }
{
    for k in 0..entries.len() {
        toggle_moves(sizes, stays(u, y), entries.at(k), row);
    }
}

// Toggles what the entry at a place changes together with each entry before it.
fn toggle_earlier(sizes: &[u64], entries: &Entries, l: usize, row: &mut [u64])
    requires { Given sizes.now entries.now × Room sizes.now row.old × (l < length entries.now) }
    ensures { row.new ≡ toggled_all row.old (earlier_features sizes.now entries.now l) }
{
    let entry = entries.at(l);
    for k in 0..l {
        toggle_moves(sizes, entries.at(k), entry, row);
    }
}

// Toggles the atoms that each entry changes.
fn toggle_singles(sizes: &[u64], entries: &Entries, row: &mut [u64])
    requires { Given sizes.now entries.now × Room sizes.now row.old }
    ensures { row.new ≡ toggled_all row.old (walk (single sizes.now) entries.now) }
{
    for k in 0..entries.len() {
        let entry = entries.at(k);
        words::toggle(row, numbering::single(sizes, entry.variable, entry.after));
        words::toggle(row, numbering::single(sizes, entry.variable, entry.before));
    }
}

// Toggles what the entries change two by two.
fn toggle_doubles(sizes: &[u64], entries: &Entries, row: &mut [u64])
    requires { Given sizes.now entries.now × Room sizes.now row.old }
    ensures { row.new ≡ toggled_all row.old (named_features sizes.now entries.now) }
{
    for l in 0..entries.len() {
        toggle_earlier(sizes, entries, l, row);
    }
}

// Toggles what an unnamed variable with its value of a state changes together with each entry; nothing for a named one.
fn toggle_value(sizes: &[u64], entries: &Entries, base: &[usize], u: usize, row: &mut [u64])
    requires { Given sizes.now entries.now × Room sizes.now row.old × State sizes.now base.now × (u < length sizes.now) }
    ensures { row.new ≡ toggled_all row.old (unnamed_features sizes.now entries.now base.now u) }
{
    if !entries.names(u) {
        toggle_beside(sizes, entries, u, base[u], row);
    }
}

// Toggles what the unnamed variables with their values of a state change together with the entries.
fn toggle_unnamed(sizes: &[u64], entries: &Entries, base: &[usize], row: &mut [u64])
    requires { Given sizes.now entries.now × Room sizes.now row.old × State sizes.now base.now }
    ensures { row.new
        ≡ toggled_all row.old (flat (length sizes.now) (unnamed_features sizes.now entries.now base.now)) }
{
    for u in 0..sizes.len() {
        toggle_value(sizes, entries, base, u, row);
    }
}

// The row of what the operator changes in a state in which it applies: its base state.
pub fn base_row(sizes: &[u64], entries: &Entries, base: &[usize], row: &mut [u64])
    requires { Given sizes.now entries.now × State sizes.now base.now × (applies entries.now base.now ≡ true)
        × (row.old ≡ replicate (words_for (features sizes.now)) 0) }
    ensures { row.new ≡ packed (features sizes.now) (change sizes.now entries.now base.now) }
{
    toggle_singles(sizes, entries, row);
    toggle_doubles(sizes, entries, row);
    toggle_unnamed(sizes, entries, base, row);
}

// Toggles what two values of an unnamed variable change together with each entry: four features for each.
fn toggle_apart(sizes: &[u64], entries: &Entries, u: usize, x: usize, y: usize, row: &mut [u64])
    requires { Given sizes.now entries.now × Room sizes.now row.old
        × (u < length sizes.now) × (x < size sizes.now u) × (y < size sizes.now u) × (names entries.now u ≡ false) }
    ensures { row.new ≡ toggled_all row.old (apart_features sizes.now entries.now u x y) }
{
    for k in 0..entries.len() {
        toggle_values(sizes, u, x, y, entries.at(k), row);
    }
}

// The row of the difference that the value y of an unnamed variable u makes to that change.
pub fn apart_row(
    sizes: &[u64],
    entries: &Entries,
    base: &[usize],
    u: usize,
    y: usize,
    row: &mut [u64],
)
    requires { Given sizes.now entries.now × State sizes.now base.now × (applies entries.now base.now ≡ true)
        × (row.old ≡ replicate (words_for (features sizes.now)) 0) × (u < length sizes.now)
        × (y < size sizes.now u) × (names entries.now u ≡ false) }
    ensures { row.new ≡ packed (features sizes.now) (difference sizes.now entries.now base.now u y) }
{
    toggle_apart(sizes, entries, u, base[u], y, row);
}

// The least possible value of a variable at y or above it.
fn next_possible(sizes: &[u64], possible: &[u64], u: usize, y: usize) -> Option<usize>
    requires { InLimits sizes.now × (atoms sizes.now ≤ word_bits * length possible.now) × (u < length sizes.now)
        × (y ≤ size sizes.now u) }
    ensures { Least (atoms_at sizes.now (has possible.now) u) (size sizes.now u) y result }
{
    for x in y..numbering::size(sizes, u) {
        if words::has(possible, numbering::single(sizes, u, x)) {
            return Some(x);
        }
    }
    None
}

// Each variable's least possible value; its size where there is none.
fn fill_least(sizes: &[u64], possible: &[u64], base: &mut [usize])
    requires { InLimits sizes.now × (atoms sizes.now ≤ word_bits * length possible.now) × (length base.old ≡ length sizes.now) }
    ensures { base.new ≡ least_values sizes.now (has possible.now) }
{
    for u in 0..base.len() {
        base[u] = next_possible(sizes, possible, u, 0).unwrap_or(numbering::size(sizes, u));
    }
}

// Puts the before values in their places.
fn fill_befores(entries: &Entries, base: &mut [usize])
    requires { (k : ℕ) → k < length entries.now → (entry_at entries.now k).variable < length base.old }
    ensures { base.new ≡ with_befores (length entries.now) entries.now base.old }
{
    for k in 0..entries.len() {
        let entry = entries.at(k);
        base[entry.variable] = entry.before;
    }
}

// The base state: the before values, and the least possible values elsewhere.
pub fn fill_base(sizes: &[u64], entries: &Entries, possible: &[u64], base: &mut [usize])
    requires { Given sizes.now entries.now × (atoms sizes.now ≤ word_bits * length possible.now) × (length base.old ≡ length sizes.now) }
    ensures { base.new ≡ base_by sizes.now entries.now (has possible.now) }
{
    fill_least(sizes, possible, base);
    fill_befores(entries, base);
}

// The least possible value of a variable at y or above it that is not its base value.
fn next_wanted(sizes: &[u64], possible: &[u64], base: &[usize], u: usize, y: usize) -> Option<usize>
    requires { InLimits sizes.now × (atoms sizes.now ≤ word_bits * length possible.now) × State sizes.now base.now
        × (u < length sizes.now) × (y ≤ size sizes.now u) }
    ensures { Least (wanted_by sizes.now (has possible.now) base.now u) (size sizes.now u) y result }
{
    let x = next_possible(sizes, possible, u, y)?;
    if x == base[u] {
        return next_possible(sizes, possible, u, x + 1);
    }
    Some(x)
}

// A variable with a value.
#[derive(Clone, Copy)]
pub struct Value {
    pub variable: usize,
    pub value: usize,
}

// The first variable with a value, from value y of variable u on, that has a difference row.
pub fn next_apart(
    sizes: &[u64],
    possible: &[u64],
    base: &[usize],
    u: usize,
    y: usize,
) -> Option<Value>
    requires { InLimits sizes.now × (atoms sizes.now ≤ word_bits * length possible.now) × State sizes.now base.now
        × (y ≤ size sizes.now u) }
    ensures { wanted_from sizes.now (wanted_by sizes.now (has possible.now) base.now) u y
        ≡ values_on sizes.now (wanted_by sizes.now (has possible.now) base.now) result }
{
    let mut start = y;
    for variable in u..sizes.len() {
        if let Some(value) = next_wanted(sizes, possible, base, variable, start) {
            return Some(Value { variable, value });
        }
        start = 0;
    }
    None
}
