// What is worked out of a step.
ghost use Rattle.std.specs.Prelude.{◌≡◌, map, IfOk, OnOk};
ghost use Rattle.civl_types.specs.Views.{scope_of};
ghost use Rattle.civl_firing.specs.values.Weights.{weight_of};
ghost use Rattle.civl_weighing.specs.Weighing.{AreWeights};
ghost use Rattle.civl_weights.specs.sums.Sums.{OfStep, IsAdded, exprs_at};

use civl_layers::{Layered, program};
use civl_tree::{Invariant, List, Memory, Program};
use civl_types::view::View;
use civl_weighing::bits::{globals_at, globals_near};
use civl_weighing::exprs::weight_of;
use civl_weighing::lists::total;
use civl_weighing::weight::Weight;
use std::alloc::Global;

/// The weights of a step's invariants, each and together, and the bits of the globals of the lower program, of the upper one
/// and of both.
#[derive(Drop)]
pub struct StepSums {
    pub step: u32,
    pub invariants: List<Weight>,
    pub together: Weight,
    pub lower: Weight,
    pub upper: Weight,
    pub near: Weight,
}

/// Adds the weight of an invariant, where it is of the step.
fn add_invariant(
    weights: &mut List<Weight>,
    view: &View,
    step: u32,
    invariant: &Invariant,
) -> Result<(), Memory>
    ensures { OnOk result (IsAdded (scope_of view.now) step invariant.now weights.old weights.new) }
{
    if invariant.step == step {
        weights.push(weight_of(view, &invariant.expr))?;
    }
    Ok(())
}

/// The weight of each invariant of a step.
fn invariant_weights(
    alloc: Global,
    view: &View,
    step: u32,
    invariants: &[Invariant],
) -> Result<List<Weight>, Memory>
    ensures { IfOk result (λ weights. AreWeights weights (map (weight_of (scope_of view.now)) (exprs_at step invariants.now))) }
{
    let mut weights = List::new(alloc);
    for invariant in invariants {
        add_invariant(&mut weights, view, step, invariant)?;
    }
    Ok(weights)
}

fn step_sums(alloc: Global, program: &Program, step: u32) -> Result<StepSums, Memory>
    ensures same { IfOk result (λ sums. sums.step ≡ step) }
    ensures sums { IfOk result (OfStep program.now) }
{
    let globals = program.globals.as_slice();
    let view = View::Globals(program);
    let invariants = invariant_weights(alloc, &view, step, program.invariants.as_slice())?;
    let together = total(invariants.as_slice());
    Ok(StepSums {
        step,
        invariants,
        together,
        lower: globals_at(globals, step.saturating_sub(1)),
        upper: globals_at(globals, step),
        near: globals_near(globals, step),
    })
}

/// Sums of some step, of which nothing is asked; here those of the step before the first.
///
/// # Errors
///
/// For want of memory.
pub fn first_sums(alloc: Global, src: &Layered) -> Result<StepSums, Memory>
    ensures { IfOk result (OfStep src.now) }
{
    step_sums(alloc, program(src), 0)
}

/// The sums of this step: those at hand, where they are its, or else new ones.
///
/// # Errors
///
/// For want of memory.
pub fn sums_at(alloc: Global, src: &Layered, sums: StepSums, step: u32) -> Result<StepSums, Memory>
    requires { OfStep src.now sums }
    ensures same { IfOk result (λ sums. sums.step ≡ step) }
    ensures sums { IfOk result (OfStep src.now) }
{
    if sums.step == step {
        return Ok(sums);
    }
    step_sums(alloc, program(src), step)
}
