// The bay builder: reads a bay file, and has the core write the task file of the bay into lent bytes, or says where the file's first fault stands.

#![tactic(auto)]

ghost use Rattle.std.specs.Prelude.{◌≡◌, ℕ, ◌*◌, ◌<◌, length};
ghost use Rattle.meaning.specs.Number.{got};
ghost use Rattle.meaning.specs.Bay.{one_apart, neighbours, bay_sizes, sides_of, bay_of, judged_bay, bay_task, Builds};
ghost use Rattle.meaning.specs.Place.{spot_alone};
ghost use Rattle.theory.specs.BayTask.{ReadableBay};
ghost use Rattle.placing.specs.Answers.{spot_of};
ghost use Rattle.writer.specs.Answer.{outcome_of};
ghost use Rattle.sliding.specs.Readers.{near_table, made_of};
ghost use Rattle.building.specs.Answers.{sides_read, labels_read, labelled, bay_in, BayRead, judged};

use limits::{LEAST_SLOTS, MOST_SLOTS};
use number::{Fault, Reason};
use placing::Spot;

// "Rows and columns are each 1 to 9"
const LEAST_SIDE: usize = 1;

const MOST_SIDE: usize = 9;

// A table has a place for each two slots.
const MOST_PLACES: usize = MOST_SLOTS * MOST_SLOTS;

// What stands in front of a bay file: rows and columns, and the place after them.
#[derive(Clone, Copy)]
struct Sides {
    rows: usize,
    columns: usize,
    next: usize,
}

// Two numbers differ by 1.
fn one_apart(a: usize, b: usize) -> bool
    ensures { result ≡ one_apart a b }
{
    a.abs_diff(b) == 1
}

// Two slots share a side.
#[tactic(auto, unfolding(meaning::specs::Bay::neighbours))]
fn neighbours(columns: usize, p: usize, q: usize) -> bool
    requires { 0 < columns }
    ensures { result ≡ neighbours columns p q }
{
    (p / columns == q / columns && one_apart(p % columns, q % columns))
        || (p % columns == q % columns && one_apart(p / columns, q / columns))
}

// Fills a table of n slots by n: 1 where the two slots of a place are neighbours, else 0.
fn mark_neighbours(near: &mut [u8], n: usize, columns: usize)
    requires { (0 < n) × (0 < columns) }
    ensures { near.new ≡ near_table (length near.old) n (neighbours columns) }
{
    for (place, mark) in near.iter_mut().enumerate() {
        *mark = neighbours(columns, place / n, place % n) as u8;
    }
}

// Judges the labels of a bay that was read, and writes its task file.
fn build_judged(
    sides: Sides,
    start: &[u64; MOST_SLOTS],
    goal: &[u64; MOST_SLOTS],
    room: &mut [u8],
) -> Result<usize, Reason>
    requires { ReadableBay (bay_in sides start.now goal.now) }
    ensures { (next : ℕ) → outcome_of result room.new ≡ made_of bay_task (judged (got (bay_in sides start.now goal.now) next)) room.old }
{
    let n = sides.rows * sides.columns;
    let places = n * n;
    let mut near = [0u8; MOST_PLACES];
    mark_neighbours(&mut near[..places], n, sides.columns);
    sliding::build(&near[..places], &start[..n], &goal[..n], room)
}

// Reads rows and columns. A number of slots that breaks its limit is placed at the columns.
fn read_sides(bay: &[u8]) -> Result<Sides, Fault>
    ensures { sides_read result ≡ sides_of bay.now 0 }
{
    let rows = number::item_at(bay, 0, LEAST_SIDE, MOST_SIDE + 1, Reason::Limit)?;
    let columns = number::item_at(bay, rows.next, LEAST_SIDE, MOST_SIDE + 1, Reason::Limit)?;
    let n = rows.value * columns.value;
    if n < LEAST_SLOTS {
        return Err(Fault(Reason::Limit, rows.next));
    }
    if MOST_SLOTS < n {
        return Err(Fault(Reason::Limit, rows.next));
    }
    Ok(Sides {
        rows: rows.value,
        columns: columns.value,
        next: columns.next,
    })
}

// Reads what stands behind the sides of a bay of n slots, each label over its bound, and that nothing follows.
fn read_labels(
    bay: &[u8],
    at: usize,
    n: usize,
    start: &mut [u64],
    goal: &mut [u64],
) -> Result<usize, Fault>
    requires { (start.old ≡ bay_sizes n) × (goal.old ≡ bay_sizes n) }
    ensures { labels_read result start.new goal.new ≡ labelled n bay.now at }
{
    let next = reader::items_at(bay, at, start, 0, 0, n, 0, Reason::Range)?;
    let end = reader::items_at(bay, next, goal, 0, 0, n, 0, Reason::Range)?;
    if end < bay.len() {
        return Err(Fault(Reason::LeftOver, end));
    }
    Ok(end)
}

// Reads a whole bay file: its sides, and into the front of two arrays the labels of its start and of its goal.
// The arrays are lent, as an answer with both would take their room once more; inlined, it takes no frame of its own either.
#[inline(always)]
fn read_bay(
    bay: &[u8],
    start: &mut [u64; MOST_SLOTS],
    goal: &mut [u64; MOST_SLOTS],
) -> Result<Sides, Fault>
    ensures { BayRead result start.new goal.new (bay_of bay.now 0) }
{
    let sides = read_sides(bay)?;
    let n = sides.rows * sides.columns;
    start.fill(n as u64);
    goal.fill(n as u64);
    read_labels(bay, sides.next, n, &mut start[..n], &mut goal[..n])?;
    Ok(sides)
}

// Builds the task file of a bay file.
pub fn build(bay: &[u8], room: &mut [u8]) -> Result<usize, Reason>
    ensures { Builds bay.now room.old (outcome_of result room.new) }
{
    let mut start = [0; MOST_SLOTS];
    let mut goal = [0; MOST_SLOTS];
    let sides = read_bay(bay, &mut start, &mut goal)?;
    build_judged(sides, &start, &goal, room)
}

// Where the first fault of a bay file stands.
pub fn spot(bay: &[u8]) -> Option<Spot>
    ensures { spot_of result ≡ spot_alone (judged_bay bay.now) }
{
    let mut start = [0; MOST_SLOTS];
    let mut goal = [0; MOST_SLOTS];
    match read_bay(bay, &mut start, &mut goal) {
        Ok(_) => None,
        Err(Fault(reason, place)) => placing::placed(reason, Spot::InTask(place)),
    }
}
