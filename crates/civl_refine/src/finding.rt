// The cut with the numbers of a condition.
ghost use Rattle.std.specs.Prelude.{◌≡◌, IsSome, Some, [], get_or, map, slice_get};
ghost use Rattle.civl_tree.specs.Numbering.{statements_of};
ghost use Rattle.civl_layers.specs.Cuts.{proc_cuts};
ghost use Rattle.civl_layers.specs.Layered.{IsLayered};
ghost use Rattle.civl_linear.specs.Cuts.{all_held};
ghost use Rattle.civl_states.specs.Notes.{IsProcIn};
ghost use Rattle.civl_refine.specs.Assuming.{IsRefined, IsStart};
ghost use Rattle.civl_refine.specs.Walked.{StartsAt};

use crate::invariants::invariant_of;
use crate::start::Start;
use civl_firing::names::action as place_of_action;
use civl_layers::{Cut, Held};
use civl_tree::{Proc, Program, Stmt};

/// The numbers of the locals that are held at a cut of a procedure.
pub fn held_numbers<'a>(held: &'a Held, proc: u32, cut: u32) -> &'a [u32]
    ensures { result.now ≡ get_or (get_or held.now.cuts proc []) cut [] }
{
    match held.cuts.as_slice().get(proc as usize) {
        Some(cuts) => match cuts.as_slice().get(cut as usize) {
            Some(numbers) => numbers.as_slice(),
            None => &[],
        },
        None => &[],
    }
}

/// The number of the action that a procedure refines.
fn refined_number(program: &Program, proc: &Proc) -> u32
    requires layered { IsLayered program.now }
    requires proc { IsProcIn program.now proc.now }
    requires refines { IsSome proc.now.refines }
    ensures { IsRefined program.now proc.now result }
{
    match &proc.refines {
        Some(refines) => place_of_action(program.actions.as_slice(), &refines.action) as u32,
        None => unreachable!(),
    }
}

/// A cut of a procedure, at a step, with what belongs to it. The procedure has this number in the program, and the cut has this
/// place among the procedure's cuts; these are all its statements, and `held` has what is held at each cut.
pub fn start_at<'a>(
    program: &'a Program,
    held: &'a Held,
    step: u32,
    number: u32,
    proc: &'a Proc,
    place: u32,
    cut: Cut,
    flat: &[&'a Stmt],
) -> Start<'a>
    requires layered { IsLayered program.now }
    requires held { held.now.cuts ≡ all_held program.now }
    requires proc { slice_get program.now.procs number ≡ Some proc.now }
    requires cut { slice_get (proc_cuts proc.now) place ≡ Some cut }
    requires flat { map (λ s. s.now) flat.now ≡ statements_of proc.now.body }
    ensures is { IsStart result }
    ensures at { StartsAt program.now step number place result }
{
    let note = invariant_of(proc, flat, cut);
    let numbers = held_numbers(held, number, place);
    let refined = refined_number(program, proc);
    Start {
        program,
        step,
        proc,
        number: place,
        cut,
        note,
        held: numbers,
        refined,
    }
}
