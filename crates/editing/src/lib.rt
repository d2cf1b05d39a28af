// Edits of a workspace: another goal, another start, one more operator. A refused edit changes no word.

#![tactic(auto)]

ghost use Rattle.std.specs.Prelude.{◌≡◌};
ghost use Rattle.meaning.specs.Workspace.{has};
ghost use Rattle.meaning.specs.Answer.{Edits, fine, add_operator, replace_start, replace_goal};
ghost use Rattle.operator.specs.Records.{record_of, judgement_of};
ghost use Rattle.pairs.specs.Ready.{Listed};
ghost use Rattle.editing.specs.Answers.{edited_of, replaced, place_of};
ghost use Rattle.editing.specs.Operand.{values_and, end_judged, operator_judged};

use layout::Places;
use number::Reason;
use operator::Operator;

// The two ends of a task, which may be given other values.
#[derive(Clone, Copy)]
enum End {
    Start,
    Goal,
}

// Judges new values: their length, then each value.
fn judge_values(sizes: &[u64], values: &[u64]) -> Result<(), Reason>
    ensures { judgement_of result ≡ values_and fine sizes.now values.now }
{
    if values.len() != sizes.len() {
        return Err(Reason::Range);
    }
    if !values.iter().zip(sizes).all(|(value, size)| value < size) {
        return Err(Reason::Range);
    }
    Ok(())
}

// Judges new values for an end: as values, then, of a start, that it holds no listed pair.
fn judge_end(end: End, sizes: &[u64], pairs: &[u64], values: &[u64]) -> Result<(), Reason>
    requires { Listed sizes.now pairs.now }
    ensures { judgement_of result ≡ end_judged end sizes.now (has pairs.now) values.now }
{
    judge_values(sizes, values)?;
    match end {
        End::Start => {
            if pairs::holds(sizes, pairs, values) {
                return Err(Reason::Held);
            }
            Ok(())
        }
        End::Goal => Ok(()),
    }
}

// Where an end's values begin.
fn place_of(end: End, at: Places) -> usize
    ensures { result ≡ place_of end at }
{
    match end {
        End::Start => at.start,
        End::Goal => at.goal,
    }
}

// Judges an operator: in file order, then that the list is closed under it.
fn judge_operator(sizes: &[u64], pairs: &[u64], operator: &Operator) -> Result<(), Reason>
    requires { Listed sizes.now pairs.now }
    ensures { judgement_of result ≡ operator_judged sizes.now (has pairs.now) (record_of operator.now) }
{
    operator::judge_operator(operator, sizes)?;
    if !pairs::is_closed(sizes, pairs, &operator.entries()) {
        return Err(Reason::Unclosed);
    }
    Ok(())
}

// Puts other values in the place of an end's. Any words and values are taken.
fn replace(workspace: &mut [u64], end: End, values: &[u64]) -> Result<(), Reason>
    ensures { Edits workspace.old (replaced end values.now) (record { answer = edited_of result; lent = workspace.new }) }
{
    let shape = formed::well_formed(workspace).ok_or(Reason::Malformed)?;
    let v = shape.variables;
    let n = shape.features;
    judge_end(
        end,
        layout::sizes(workspace, v),
        layout::pairs(workspace, v, n),
        values,
    )?;
    let at = place_of(end, layout::places_for(v, n));
    words::copy(&mut workspace[at..at + v], values);
    Ok(())
}

// Puts other values in the place of the goal's.
pub fn replace_goal(workspace: &mut [u64], values: &[u64]) -> Result<(), Reason>
    ensures { Edits workspace.old (replace_goal values.now) (record { answer = edited_of result; lent = workspace.new }) }
{
    replace(workspace, End::Goal, values)
}

// Puts other values in the place of the start's.
pub fn replace_start(workspace: &mut [u64], values: &[u64]) -> Result<(), Reason>
    ensures { Edits workspace.old (replace_start values.now) (record { answer = edited_of result; lent = workspace.new }) }
{
    replace(workspace, End::Start, values)
}

// Adds the condition of one more operator to the slots. Any words and any record are taken.
pub fn add_operator(workspace: &mut [u64], operator: Operator) -> Result<(), Reason>
    ensures { Edits workspace.old (add_operator (record_of operator)) (record { answer = edited_of result; lent = workspace.new }) }
{
    let shape = formed::well_formed(workspace).ok_or(Reason::Malformed)?;
    let v = shape.variables;
    let n = shape.features;
    judge_operator(
        layout::sizes(workspace, v),
        layout::pairs(workspace, v, n),
        &operator,
    )?;
    condition::add_rows(workspace, v, n, &operator.entries());
    Ok(())
}
