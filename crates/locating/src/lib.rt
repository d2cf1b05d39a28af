// Finds where the first fault of a task file or a partial task file stands, and of the weights beside it.

#![tactic(auto)]

ghost use Rattle.std.specs.Prelude.{◌≡◌, ◌≤◌};
ghost use Rattle.meaning.specs.Limits.{most_features};
ghost use Rattle.meaning.specs.File.{plain, kind_if, judged_task, judged_weights_as};
ghost use Rattle.meaning.specs.Partial.{left_out, judged_partial};
ghost use Rattle.meaning.specs.Place.{in_task, in_weights, nowhere, fault_spot, spot_by, spot_alone, spot_beside};
ghost use Rattle.number.specs.Answers.{reason_of};
ghost use Rattle.placing.specs.Answers.{spot_of};

use limits::{HEADER_WORDS, MOST_WORDS};
use number::Fault;
use placing::Spot;

// Where a fault of a task file or a partial one stands, if it has a place.
fn fault_spot(fault: Fault) -> Option<Spot>
    ensures { spot_of result ≡ fault_spot in_task (reason_of fault.0) fault.1 }
{
    placing::placed(fault.0, Spot::InTask(fault.1))
}

// The first fault of weights of a kind, over so many features.
fn weights_spot(weights: &[u8], gapped: bool, n: usize) -> Option<Spot>
    requires { n ≤ most_features }
    ensures { spot_of result ≡ spot_by in_weights (judged_weights_as (kind_if gapped) n weights.now) (λ _. nowhere) }
{
    let mut words = [0u64; MOST_WORDS];
    let w = layout::words_for(n);
    let Fault(reason, place) = reader::read_weights(weights, gapped, n, &mut words[..w]).err()?;
    placing::placed(reason, Spot::InWeights(place))
}

// The first fault of a task that comes alone.
pub fn task_spot(task: &[u8]) -> Option<Spot>
    ensures { spot_of result ≡ spot_alone (judged_task task.now) }
{
    let mut words = [0u64; HEADER_WORDS];
    fault_spot(task::judge(task, &mut words).err()?)
}

// The first fault of a task and weights of a kind.
pub fn spot(task: &[u8], gapped: bool, weights: &[u8]) -> Option<Spot>
    ensures { spot_of result ≡ spot_beside (kind_if gapped) (judged_task task.now) weights.now }
{
    let mut words = [0u64; HEADER_WORDS];
    match task::judge(task, &mut words) {
        Ok(header) => weights_spot(weights, gapped, header.features),
        Err(fault) => fault_spot(fault),
    }
}

// The first fault of a partial task and weights for its built task.
pub fn partial_spot(partial: &[u8], weights: &[u8]) -> Option<Spot>
    ensures { spot_of result ≡ spot_beside plain (judged_partial left_out partial.now) weights.now }
{
    let mut words = [0u64; HEADER_WORDS];
    match order::judge(partial, false, &mut words) {
        Ok(judged) => weights_spot(weights, false, judged.header.features),
        Err(fault) => fault_spot(fault),
    }
}
