// The finder: the least weights that separate a workspace's start from its goal, or that there are none.

#![tactic(auto)]

ghost use Rattle.std.specs.Prelude.{◌≡◌, ◌≤◌, ltb, length, replicate};
ghost use Rattle.meaning.specs.Workspace.{words_for, Proper};
ghost use Rattle.meaning.specs.Answer.{done, FindsIn, Finds};
ghost use Rattle.theory.specs.Contents.{content_in};
ghost use Rattle.theory.specs.Slots.{lead};
ghost use Rattle.layout.specs.Parts.{Due};
ghost use Rattle.slots.specs.Area.{slots_in};
ghost use Rattle.slots.specs.Find.{found};
ghost use Rattle.formed.specs.Parts.{Sized};
ghost use Rattle.finding.specs.Search.{Searched, left_in};
ghost use Rattle.finding.specs.Found.{finding_of, found_of};

use limits::MOST_WORDS;
use number::Reason;

// Weights are found, or there are none.
#[derive(Clone, Copy)]
pub enum Found {
    Separated,
    Nothing,
}

// Finds by what is left of the ends' difference once it is reduced by the slots. The row is spent.
fn search(
    sizes: &[u64],
    start: &[u64],
    goal: &[u64],
    area: &[u64],
    n: usize,
    row: &mut [u64],
    room: &mut [u64],
) -> bool
    requires { Searched sizes.now start.now goal.now area.now n × (row.old ≡ replicate (words_for n) 0) × (words_for n ≤ length room.old) }
    ensures { (result ≡ ltb (lead n (left_in sizes.now start.now goal.now area.now n)) n)
        × (room.new ≡ found n (slots_in n area.now) (left_in sizes.now start.now goal.now area.now n) room.old) }
{
    condition::fill_difference(sizes, start, goal, row);
    slots::reduce(area, n, row);
    slots::find(area, n, row, room)
}

// Finds in a workspace of v variables and n features, where the room is large enough.
fn find_in(workspace: &[u64], v: usize, n: usize, room: &mut [u64]) -> bool
    requires { Sized workspace.now v n × Due v n workspace.now × Proper (content_in workspace.now) × (words_for n ≤ length room.old) }
    ensures { FindsIn (content_in workspace.now) room.old (record { answer = done (finding_of result); lent = room.new }) }
{
    let w = layout::words_for(n);
    let mut row = [0u64; MOST_WORDS];
    search(
        layout::sizes(workspace, v),
        layout::start(workspace, v, n),
        layout::goal(workspace, v, n),
        layout::slots(workspace, v, n),
        n,
        &mut row[..w],
        room,
    )
}

// The least weights that separate go to the first words of the room. Any words are taken.
pub fn find(workspace: &[u64], room: &mut [u64]) -> Result<Found, Reason>
    ensures { Finds workspace.now room.old (record { answer = found_of result; lent = room.new }) }
{
    let shape = formed::well_formed(workspace).ok_or(Reason::Malformed)?;
    if room.len() < layout::words_for(shape.features) {
        return Err(Reason::Small);
    }
    if find_in(workspace, shape.variables, shape.features, room) {
        return Ok(Found::Separated);
    }
    Ok(Found::Nothing)
}
