// The sorts of a condition's variables.
ghost use Rattle.std.specs.Prelude.{◌≡◌, ◌++◌, [], Some, slice_get, IfOk, OnOk};
ghost use Rattle.std.specs.Option.{option_map_or};
ghost use Rattle.civl_bodies.specs.Bodies.{AreBodies, IsBody};
ghost use Rattle.civl_layers.specs.Cuts.{proc_cuts};
ghost use Rattle.civl_conditions.specs.Steps.{of_action, of_cut};
ghost use Rattle.civl_states.specs.Formulas.{sorts_of};
ghost use Rattle.civl_states.specs.Runs.{param_sorts};
ghost use Rattle.civl_states.specs.inner.Sorted.{cut_sorts, grouped_sorts, lower_sorts, other_sorts, thread_sorts};

use crate::beginning_choices::passed_from;
use crate::path_sorts::push_path;
use crate::sort_groups::{push_action, push_globals, push_locals, push_params};
use crate::stores::Existing;
use civl_bodies::{Bodies, Body, body_at};
use civl_conditions::{Condition, Target};
use civl_layers::{Layered, program};
use civl_terms::Memory;
use civl_tree::{List, Proc, Program, Sort};
use std::alloc::Global;

// ---- actions

/// Those of the parameters alone.
fn push_inputs(sorts: &mut Vec<Sort>, program: &Program, number: u32) -> Result<(), Memory>
    ensures { OnOk result (sorts.new.items ≡ sorts.old.items ++ of_action program.now number [] param_sorts) }
{
    match program.actions.as_slice().get(number as usize) {
        Some(action) => {
            push_params(sorts, action.params.as_slice())?;
            Ok(())
        }
        None => Ok(()),
    }
}

/// The globals of the lower layer of a step.
fn push_lower(sorts: &mut Vec<Sort>, program: &Program, step: u32) -> Result<(), Memory>
    ensures { OnOk result (sorts.new.items ≡ sorts.old.items ++ lower_sorts program.now step) }
{
    push_globals(sorts, program, Existing::Layer(step.saturating_sub(1)))
}

// ---- procedures

/// The frame of another thread, which is in this procedure.
fn push_frame(sorts: &mut Vec<Sort>, proc: &Proc) -> Result<(), Memory>
    ensures { OnOk result (sorts.new.items ≡ sorts.old.items ++ thread_sorts proc.now) }
{
    push_params(sorts, proc.params.as_slice())?;
    push_params(sorts, proc.outs.as_slice())?;
    push_locals(sorts, proc.locals.as_slice())?;
    sorts.push(Sort::Bool)?;
    Ok(())
}

/// The other thread's frame, where the target is a yield.
fn push_other(sorts: &mut Vec<Sort>, program: &Program, target: Target) -> Result<(), Memory>
    ensures { OnOk result (sorts.new.items ≡ sorts.old.items ++ other_sorts program.now target) }
{
    match target {
        Target::Invariant(_) => Ok(()),
        Target::Yield(number, _) => match program.procs.as_slice().get(number as usize) {
            Some(proc) => {
                push_frame(sorts, proc)?;
                Ok(())
            }
            None => Ok(()),
        },
    }
}

/// The paths from the cut with this number of a procedure, where there is one.
fn push_from(
    alloc: Global,
    sorts: &mut Vec<Sort>,
    program: &Program,
    step: u32,
    proc: &Proc,
    body: &Body<'_>,
    number: u32,
) -> Result<(), Memory>
    requires { IsBody proc.now body.now }
    ensures { OnOk result (sorts.new.items ≡ sorts.old.items ++ option_map_or (cut_sorts program.now step proc.now) (slice_get (proc_cuts proc.now) number) []) }
{
    match body.cuts.as_slice().get(number as usize) {
        Some(cut) => {
            let passed = passed_from(alloc, body, number)?;
            push_path(
                sorts,
                program,
                step,
                proc,
                *cut,
                body.statements.as_slice(),
                passed.as_slice(),
            )?;
            Ok(())
        }
        None => Ok(()),
    }
}

/// The paths from a cut of the procedure with this number.
fn push_in(
    alloc: Global,
    sorts: &mut Vec<Sort>,
    src: &Layered,
    bodies: &Bodies<'_>,
    step: u32,
    number: u32,
    proc: &Proc,
    cut: u32,
) -> Result<(), Memory>
    requires bodies { AreBodies src.now bodies.now }
    requires found { slice_get src.now.procs number ≡ Some proc.now }
    ensures { OnOk result (sorts.new.items ≡ sorts.old.items ++ option_map_or (cut_sorts src.now step proc.now) (slice_get (proc_cuts proc.now) cut) []) }
{
    let body = body_at(bodies, src, number);
    push_from(alloc, sorts, program(src), step, proc, body, cut)?;
    Ok(())
}

/// The paths from the cut with this number of the procedure with this number, where there are both.
fn push_cut(
    alloc: Global,
    sorts: &mut Vec<Sort>,
    src: &Layered,
    bodies: &Bodies<'_>,
    step: u32,
    number: u32,
    cut: u32,
) -> Result<(), Memory>
    requires { AreBodies src.now bodies.now }
    ensures { OnOk result (sorts.new.items ≡ sorts.old.items ++ of_cut src.now number cut [] (cut_sorts src.now step)) }
{
    match program(src).procs.as_slice().get(number as usize) {
        Some(proc) => {
            push_in(alloc, sorts, src, bodies, step, number, proc, cut)?;
            Ok(())
        }
        None => Ok(()),
    }
}

// ---- conditions

/// The sorts of a condition's variables, group by group.
#[tactic(auto, using(std::proofs::lemmas::List::append_assoc))]
fn push_groups(
    alloc: Global,
    sorts: &mut Vec<Sort>,
    src: &Layered,
    bodies: &Bodies<'_>,
    condition: &Condition,
) -> Result<(), Memory>
    requires { AreBodies src.now bodies.now }
    ensures { OnOk result (sorts.new.items ≡ sorts.old.items ++ grouped_sorts src.now condition.now) }
{
    let program = program(src);
    match *condition {
        Condition::Start(_, _) => push_globals(sorts, program, Existing::All),
        Condition::Keep(step, action) => {
            push_lower(sorts, program, step)?;
            push_action(sorts, program, action)
        }
        Condition::Pair(_, step, first, second) => {
            push_lower(sorts, program, step)?;
            push_action(sorts, program, first)?;
            push_action(sorts, program, second)
        }
        Condition::Fire(step, action) => {
            push_lower(sorts, program, step)?;
            push_inputs(sorts, program, action)
        }
        Condition::Path(_, step, proc, cut) => {
            push_cut(alloc, sorts, src, bodies, step, proc, cut)
        }
        Condition::Block(step, proc, cut, target) => {
            push_cut(alloc, sorts, src, bodies, step, proc, cut)?;
            push_other(sorts, program, target)
        }
        Condition::Act(step, action, target) => {
            push_globals(sorts, program, Existing::Near(step))?;
            push_action(sorts, program, action)?;
            push_other(sorts, program, target)
        }
    }
}

/// The sorts of a condition's variables, in their order. `bodies` is what belongs to each procedure.
///
/// # Errors
///
/// For want of memory.
pub fn variable_sorts(
    alloc: Global,
    src: &Layered,
    bodies: &Bodies<'_>,
    condition: &Condition,
) -> Result<List<Sort>, Memory>
    requires { AreBodies src.now bodies.now }
    ensures { IfOk result (λ sorts. sorts ≡ sorts_of src.now condition.now) }
{
    let mut sorts = Vec::new(alloc);
    push_groups(alloc, &mut sorts, src, bodies, condition)?;
    Ok(List::from_vec(sorts))
}
