// Lists of weights.
ghost use Rattle.civl_weighing.specs.Weighing.{IsAt, IsTotal, AreSummed};

use crate::weight::Weight;

/// The weight at this place, or nothing behind the last.
pub fn weight_at(weights: &[Weight], at: u32) -> Weight
    ensures { IsAt weights.now at result }
{
    match weights.get(at as usize) {
        Some(weight) => *weight,
        None => Weight::of(0),
    }
}

/// All of them together.
pub fn total(weights: &[Weight]) -> Weight
    ensures { IsTotal weights.now result }
{
    let mut total = Weight::of(0);
    for weight in weights {
        total = total.plus(*weight);
    }
    total
}

/// Those at these places together.
pub fn total_at(weights: &[Weight], places: &[u32]) -> Weight
    ensures { AreSummed weights.now places.now result }
{
    let mut total = Weight::of(0);
    for at in places {
        total = total.plus(weight_at(weights, *at));
    }
    total
}
