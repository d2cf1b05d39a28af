// The C face: each call on numbers and slices, with one number as its answer.

#![tactic(auto)]

ghost use Rattle.meaning.specs.Limits.{most_variables};
ghost use Rattle.meaning.specs.Answer.{Checks, ChecksNew, Opens, Finds, Edits, add_operator, replace_start, replace_goal};
ghost use Rattle.meaning.specs.Bay.{Builds};
ghost use Rattle.meaning.specs.Partial.{OpensPartial, ChecksPartial, ChecksPartialNew, BuildsPartial, BuildsPartialLean, Silences};
ghost use Rattle.meaning.specs.Mend.{Mends, Drops, FaultsPairs};
ghost use Rattle.meaning.specs.Place.{Displays, DisplaysNew, DisplaysPartial, DisplaysBay};
ghost use Rattle.meaning.specs.Convert.{ConvertsToNew, ConvertsToOld, ConvertsWeightsToNew, ConvertsWeightsToOld};
ghost use Rattle.line.specs.Answer.{Lines};
ghost use Rattle.verdicts.specs.Answer.{VerdictLines};
ghost use Rattle.words.specs.Members.{members_in};
ghost use Rattle.writer.specs.Weights.{Writes};
ghost use Rattle.codes.specs.Code.{verdict_code, length_code, finding_code, edit_code, fault_code, holder_code, Coded, Leaves};
ghost use Rattle.florumeja.specs.Places.{handed, SamePlaces};

use limits::MOST_ENTRIES;
use operator::Operator;

// The places of a slice that a record holds; places past the slice's end are 0.
fn places(words: &[u64]) -> [usize; MOST_ENTRIES]
    ensures { SamePlaces most_variables result words.now }
{
    let mut copied = [0usize; MOST_ENTRIES];
    for i in 0..MOST_ENTRIES {
        copied[i] = words.get(i).map_or(0, |word| *word as usize);
    }
    copied
}

// Checks weights against a task.
#[unsafe(no_mangle)]
pub extern "C" fn florumeja_check(task: &[u8], weights: &[u8]) -> u64
    ensures { Coded verdict_code (Checks task.now weights.now) result }
{
    codes::verdict_number(checking::check(task, weights))
}

// Opens a workspace from a task.
#[unsafe(no_mangle)]
pub extern "C" fn florumeja_open(task: &[u8], room: &mut [u64]) -> u64
    ensures { Leaves length_code (Opens task.now room.old) (record { number = result; lent = room.new }) }
{
    codes::number(opening::open(task, room))
}

// Finds the least weights that separate a workspace's start from its goal.
#[unsafe(no_mangle)]
pub extern "C" fn florumeja_find(workspace: &[u64], room: &mut [u64]) -> u64
    ensures { Leaves finding_code (Finds workspace.now room.old) (record { number = result; lent = room.new }) }
{
    codes::number(finding::find(workspace, room))
}

// Adds an operator to a workspace. Places past a slice's end count as 0.
#[unsafe(no_mangle)]
pub extern "C" fn florumeja_add_operator(
    workspace: &mut [u64],
    count: u64,
    variables: &[u64],
    befores: &[u64],
    afters: &[u64],
) -> u64
    ensures { Leaves edit_code
        (Edits workspace.old (add_operator (handed count variables.now befores.now afters.now)))
        (record { number = result; lent = workspace.new }) }
{
    let operator = Operator {
        count: count as usize,
        variables: places(variables),
        befores: places(befores),
        afters: places(afters),
    };
    codes::number(editing::add_operator(workspace, operator))
}

// Puts other values in the place of a workspace's start.
#[unsafe(no_mangle)]
pub extern "C" fn florumeja_replace_start(workspace: &mut [u64], values: &[u64]) -> u64
    ensures { Leaves edit_code (Edits workspace.old (replace_start values.now)) (record { number = result; lent = workspace.new }) }
{
    codes::number(editing::replace_start(workspace, values))
}

// Puts other values in the place of a workspace's goal.
#[unsafe(no_mangle)]
pub extern "C" fn florumeja_replace_goal(workspace: &mut [u64], values: &[u64]) -> u64
    ensures { Leaves edit_code (Edits workspace.old (replace_goal values.now)) (record { number = result; lent = workspace.new }) }
{
    codes::number(editing::replace_goal(workspace, values))
}

// Builds the task file of a bay file.
#[unsafe(no_mangle)]
pub extern "C" fn florumeja_build(bay: &[u8], room: &mut [u8]) -> u64
    ensures { Leaves length_code (Builds bay.now room.old) (record { number = result; lent = room.new }) }
{
    codes::number(building::build(bay, room))
}

// The line that the finder's program prints for an input.
#[unsafe(no_mangle)]
pub extern "C" fn florumeja_line(input: &[u8], room: &mut [u8]) -> u64
    ensures { Leaves length_code (Lines input.now room.old) (record { number = result; lent = room.new }) }
{
    codes::number(line::line(input, room))
}

// Writes the weight file of a set of features in words, as the finder leaves them.
#[unsafe(no_mangle)]
pub extern "C" fn florumeja_weight_file(words: &[u64], room: &mut [u8]) -> u64
    ensures { Leaves length_code (Writes (members_in words.now) room.old) (record { number = result; lent = room.new }) }
{
    codes::number(writer::weight_file(words, room))
}

// The line that tells the verdict on weights for a task.
#[unsafe(no_mangle)]
pub extern "C" fn florumeja_check_line(task: &[u8], weights: &[u8], room: &mut [u8]) -> u64
    ensures { Leaves length_code (VerdictLines task.now weights.now room.old) (record { number = result; lent = room.new }) }
{
    codes::number(verdicts::line(task, weights, room))
}

// Opens a workspace from a partial task: that of its built task.
#[unsafe(no_mangle)]
pub extern "C" fn florumeja_open_partial(partial: &[u8], room: &mut [u64]) -> u64
    ensures { Leaves length_code (OpensPartial partial.now room.old) (record { number = result; lent = room.new }) }
{
    codes::number(opening::open_partial(partial, room))
}

// Checks weights against a partial task: against its built task.
#[unsafe(no_mangle)]
pub extern "C" fn florumeja_check_partial(partial: &[u8], weights: &[u8]) -> u64
    ensures { Coded verdict_code (ChecksPartial partial.now weights.now) result }
{
    codes::verdict_number(checking::check_partial(partial, weights))
}

// Builds the task file of a partial task, with what may be left out by the letter left out.
#[unsafe(no_mangle)]
pub extern "C" fn florumeja_build_partial(partial: &[u8], room: &mut [u8]) -> u64
    ensures { Leaves length_code (BuildsPartial partial.now room.old) (record { number = result; lent = room.new }) }
{
    codes::number(completing::build_partial(partial, room))
}

// The same, with the forgetting operators of named variables left out too.
#[unsafe(no_mangle)]
pub extern "C" fn florumeja_build_partial_lean(partial: &[u8], room: &mut [u8]) -> u64
    ensures { Leaves length_code (BuildsPartialLean partial.now room.old) (record { number = result; lent = room.new }) }
{
    codes::number(completing::build_partial_lean(partial, room))
}

// The partial task file of a task and a mark for each variable.
#[unsafe(no_mangle)]
pub extern "C" fn florumeja_silence(task: &[u8], marks: &[u8], room: &mut [u8]) -> u64
    ensures { Leaves length_code (Silences task.now marks.now room.old) (record { number = result; lent = room.new }) }
{
    codes::number(silencing::silence(task, marks, room))
}

// The file of a task with the largest good sublist of its listed pairs.
#[unsafe(no_mangle)]
pub extern "C" fn florumeja_mend(task: &[u8], room: &mut [u8]) -> u64
    ensures { Leaves length_code (Mends task.now room.old) (record { number = result; lent = room.new }) }
{
    codes::number(mending::mend(task, room))
}

// The listed pairs that are dropped for it, with their count.
#[unsafe(no_mangle)]
pub extern "C" fn florumeja_dropped(task: &[u8], room: &mut [u8]) -> u64
    ensures { Leaves length_code (Drops task.now room.old) (record { number = result; lent = room.new }) }
{
    codes::number(mending::dropped(task, room))
}

// The pair behind a refusal 6 or 7, and the operator.
#[unsafe(no_mangle)]
pub extern "C" fn florumeja_pair_fault(task: &[u8], room: &mut [u64]) -> u64
    ensures { Leaves fault_code (FaultsPairs task.now room.old) (record { number = result; lent = room.new }) }
{
    codes::number(mending::pair_fault(task, room))
}

// Where the bytes at fault of a task and weights lie.
#[unsafe(no_mangle)]
pub extern "C" fn florumeja_display(task: &[u8], weights: &[u8], room: &mut [u64]) -> u64
    ensures { Leaves holder_code (Displays task.now weights.now room.old) (record { number = result; lent = room.new }) }
{
    codes::number(showing::display_words(task, weights, room))
}

// Where the bytes at fault of a partial task and weights for its built task lie.
#[unsafe(no_mangle)]
pub extern "C" fn florumeja_display_partial(partial: &[u8], weights: &[u8], room: &mut [u64]) -> u64
    ensures { Leaves holder_code (DisplaysPartial partial.now weights.now room.old) (record { number = result; lent = room.new }) }
{
    codes::number(showing::display_partial(partial, weights, room))
}

// Where the bytes at fault of a bay file lie.
#[unsafe(no_mangle)]
pub extern "C" fn florumeja_display_bay(bay: &[u8], room: &mut [u64]) -> u64
    ensures { Leaves holder_code (DisplaysBay bay.now room.old) (record { number = result; lent = room.new }) }
{
    codes::number(showing::display_bay(bay, room))
}

// The new file of an old task file.
#[unsafe(no_mangle)]
pub extern "C" fn florumeja_to_new(task: &[u8], room: &mut [u8]) -> u64
    ensures { Leaves length_code (ConvertsToNew task.now room.old) (record { number = result; lent = room.new }) }
{
    codes::number(converting::to_new(task, room))
}

// The old file of a new task file.
#[unsafe(no_mangle)]
pub extern "C" fn florumeja_to_old(task: &[u8], room: &mut [u8]) -> u64
    ensures { Leaves length_code (ConvertsToOld task.now room.old) (record { number = result; lent = room.new }) }
{
    codes::number(converting::to_old(task, room))
}

// The new file of an old weight file, beside its task.
#[unsafe(no_mangle)]
pub extern "C" fn florumeja_weights_to_new(task: &[u8], weights: &[u8], room: &mut [u8]) -> u64
    ensures { Leaves length_code (ConvertsWeightsToNew task.now weights.now room.old) (record { number = result; lent = room.new }) }
{
    codes::number(converting::weights_to_new(task, weights, room))
}

// The old file of a new weight file, beside its task.
#[unsafe(no_mangle)]
pub extern "C" fn florumeja_weights_to_old(task: &[u8], weights: &[u8], room: &mut [u8]) -> u64
    ensures { Leaves length_code (ConvertsWeightsToOld task.now weights.now room.old) (record { number = result; lent = room.new }) }
{
    codes::number(converting::weights_to_old(task, weights, room))
}

// Checks new weights against a task.
#[unsafe(no_mangle)]
pub extern "C" fn florumeja_check_new(task: &[u8], weights: &[u8]) -> u64
    ensures { Coded verdict_code (ChecksNew task.now weights.now) result }
{
    codes::verdict_number(checking::check_new(task, weights))
}

// Checks new weights against a partial task: against its built task.
#[unsafe(no_mangle)]
pub extern "C" fn florumeja_check_partial_new(partial: &[u8], weights: &[u8]) -> u64
    ensures { Coded verdict_code (ChecksPartialNew partial.now weights.now) result }
{
    codes::verdict_number(checking::check_partial_new(partial, weights))
}

// Where the bytes at fault of a task and new weights lie.
#[unsafe(no_mangle)]
pub extern "C" fn florumeja_display_new(task: &[u8], weights: &[u8], room: &mut [u64]) -> u64
    ensures { Leaves holder_code (DisplaysNew task.now weights.now room.old) (record { number = result; lent = room.new }) }
{
    codes::number(showing::display_new(task, weights, room))
}
