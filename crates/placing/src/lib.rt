// Where a fault stands: its place in one of two files, and the bytes of the number there as far as they were read.

#![tactic(auto)]

ghost use Rattle.std.specs.Prelude.{◌≡◌, cond, Some};
ghost use Rattle.meaning.specs.Number.{has_place};
ghost use Rattle.meaning.specs.Place.{nowhere, part_at};
ghost use Rattle.number.specs.Answers.{reason_of};
ghost use Rattle.placing.specs.Answers.{spot_of, part_of};

use number::Reason;

// A place in the task or in the weights.
#[derive(Clone, Copy)]
pub enum Spot {
    InTask(usize),
    InWeights(usize),
}

// A part of the task or of the weights: where it begins, and how many bytes it has.
#[derive(Clone, Copy)]
pub enum Part {
    OfTask(usize, usize),
    OfWeights(usize, usize),
}

// The spot of a fault, if its reason has a place.
pub fn placed(reason: Reason, spot: Spot) -> Option<Spot>
    ensures { spot_of result ≡ cond (has_place (reason_of reason)) (spot_of (Some spot)) nowhere }
{
    reason.has_place().then_some(spot)
}

// The part that is shown of the number at a spot; it is empty where there is none.
pub fn part_at(task: &[u8], weights: &[u8], spot: Option<Spot>) -> Part
    ensures { part_of result ≡ part_at task.now weights.now (spot_of spot) }
{
    match spot {
        None => Part::OfTask(0, 0),
        Some(Spot::InTask(place)) => Part::OfTask(place, number::bytes_read(task, place)),
        Some(Spot::InWeights(place)) => Part::OfWeights(place, number::bytes_read(weights, place)),
    }
}
