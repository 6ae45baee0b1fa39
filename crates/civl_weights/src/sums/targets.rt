// What is worked out of a target.
ghost use Rattle.civl_conditions.specs.Weights.{target_items};
ghost use Rattle.civl_weighing.specs.Weighing.{Weighs};
ghost use Rattle.civl_weights.specs.sums.Sums.{OfStep};
ghost use Rattle.civl_weights.specs.sums.Tables.{OfProgram, OfTarget, IsTogether};

use crate::sums::steps::StepSums;
use crate::sums::tables::Tables;
use civl_conditions::Target;
use civl_tree::Program;
use civl_weighing::lists::weight_at;
use civl_weighing::weight::{Weight, linear};

/// The weight of a target, how many items the frame there holds, and the bits of that frame.
#[derive(Clone, Copy)]
pub struct TargetSums {
    pub weight: Weight,
    pub items: Weight,
    pub frame: Weight,
}

/// The sums of a target at a step.
pub fn target_sums(
    program: &Program,
    tables: &Tables,
    step: &StepSums,
    target: Target,
) -> TargetSums
    requires tables { OfProgram program.now tables.now }
    requires step { OfStep program.now step.now }
    ensures { OfTarget program.now step.now.step target result }
{
    let nothing = Weight::of(0);
    match target {
        Target::Invariant(number) => TargetSums {
            weight: weight_at(step.invariants.as_slice(), number),
            items: nothing,
            frame: nothing,
        },
        Target::Yield(proc, cut) => match tables.procs.as_slice().get(proc as usize) {
            Some(sums) => TargetSums {
                weight: weight_at(sums.notes.invariants.as_slice(), cut),
                items: weight_at(sums.notes.items.as_slice(), cut),
                frame: sums.notes.frame,
            },
            None => TargetSums {
                weight: nothing,
                items: nothing,
                frame: nothing,
            },
        },
    }
}

/// What so many items and those of the target weigh together, where it is a yield.
pub fn together(program: &Program, items: Weight, target: Target, sums: TargetSums) -> Weight
    requires { Weighs sums.items (target_items program.now target) }
    ensures { IsTogether program.now items target result }
{
    match target {
        Target::Invariant(_) => Weight::of(0),
        Target::Yield(_, _) => linear(program, items.plus(sums.items)),
    }
}
