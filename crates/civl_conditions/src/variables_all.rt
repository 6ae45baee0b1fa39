// The variables of conditions.
ghost use Rattle.std.specs.Prelude.{◌≡◌, ◌<◌, ◌^◌, ◌++◌, ◌∷◌, [], Some, slice_get, codes, OnOk, IfOk};
ghost use Rattle.std.specs.Option.{option_map_or};
ghost use Rattle.civl_tree.specs.Numbered.{IsNumbered};
ghost use Rattle.civl_tree.specs.Numbering.{sizes_of};
ghost use Rattle.civl_layers.specs.Cuts.{proc_cuts};
ghost use Rattle.civl_conditions.specs.Steps.{of_action, of_cut};
ghost use Rattle.civl_conditions.specs.Variables.{flag, of_params, of_locals, of_instance, path_variables, other_variables, variables};

use crate::condition::{Condition, Target, Variable};
use crate::variables_groups::{
    push_flag, push_globals, push_instance, push_locals, push_lower, push_near, push_params,
};
use crate::variables_paths::push_path;
use civl_layers::{Cut, Layered, cuts, program};
use civl_tree::{List, Memory, Proc, Program};
use std::alloc::Global;

// ---- actions

/// The parameters and choices of the action with this number, where there is one.
fn push_action(
    alloc: Global,
    list: &mut List<Variable>,
    front: &[u8],
    program: &Program,
    number: u32,
) -> Result<(), Memory>
    ensures { OnOk result (list.new ≡ list.old ++ of_action program.now number [] (of_instance front.now)) }
{
    match program.actions.as_slice().get(number as usize) {
        Some(action) => {
            push_instance(alloc, list, front, action)?;
            Ok(())
        }
        None => Ok(()),
    }
}

/// The parameters alone.
fn push_inputs(
    alloc: Global,
    list: &mut List<Variable>,
    front: &[u8],
    program: &Program,
    number: u32,
) -> Result<(), Memory>
    ensures { OnOk result (list.new ≡ list.old ++ of_action program.now number [] (λ a. of_params front.now a.params)) }
{
    match program.actions.as_slice().get(number as usize) {
        Some(action) => {
            push_params(alloc, list, front, action.params.as_slice())?;
            Ok(())
        }
        None => Ok(()),
    }
}

// ---- procedures

/// The frame of another thread, which is in this procedure.
fn push_frame(alloc: Global, list: &mut List<Variable>, proc: &Proc) -> Result<(), Memory>
    ensures { OnOk result (list.new ≡ list.old ++ (of_params (codes "other.") proc.now.params ++ (of_params (codes "other.") proc.now.outs ++ (of_locals (codes "other.") proc.now.locals ++ flag (codes "other.done") ∷ [])))) }
{
    push_params(alloc, list, b"other.", proc.params.as_slice())?;
    push_params(alloc, list, b"other.", proc.outs.as_slice())?;
    push_locals(alloc, list, b"other.", proc.locals.as_slice())?;
    push_flag(alloc, list, b"other.done")?;
    Ok(())
}

/// The other thread's frame, where the target is a yield.
fn push_other(
    alloc: Global,
    list: &mut List<Variable>,
    program: &Program,
    target: Target,
) -> Result<(), Memory>
    ensures { OnOk result (list.new ≡ list.old ++ other_variables program.now target) }
{
    match target {
        Target::Invariant(_) => Ok(()),
        Target::Yield(number, _) => match program.procs.as_slice().get(number as usize) {
            Some(proc) => {
                push_frame(alloc, list, proc)?;
                Ok(())
            }
            None => Ok(()),
        },
    }
}

/// The paths from the cut with this number among those of a procedure, where there is one.
fn push_from(
    alloc: Global,
    list: &mut List<Variable>,
    program: &Program,
    step: u32,
    proc: &Proc,
    cuts: &[Cut],
    number: u32,
) -> Result<(), Memory>
    requires { sizes_of proc.now.body < 2 ^ 32 }
    ensures { OnOk result (list.new ≡ list.old ++ option_map_or (path_variables program.now step proc.now) (slice_get cuts.now number) []) }
{
    match cuts.get(number as usize) {
        Some(cut) => {
            push_path(alloc, list, program, step, proc, *cut)?;
            Ok(())
        }
        None => Ok(()),
    }
}

/// The paths from a cut of the procedure with this number.
fn push_in(
    alloc: Global,
    list: &mut List<Variable>,
    src: &Layered,
    step: u32,
    number: u32,
    proc: &Proc,
    cut: u32,
) -> Result<(), Memory>
    requires numbered { IsNumbered src.now }
    requires found { slice_get src.now.procs number ≡ Some proc.now }
    ensures { OnOk result (list.new ≡ list.old ++ option_map_or (path_variables src.now step proc.now) (slice_get (proc_cuts proc.now) cut) []) }
{
    let cuts = cuts(alloc, src, number)?;
    push_from(alloc, list, program(src), step, proc, cuts.as_slice(), cut)
}

/// The paths from the cut with this number of the procedure with this number, where there are both.
fn push_cut(
    alloc: Global,
    list: &mut List<Variable>,
    src: &Layered,
    step: u32,
    number: u32,
    cut: u32,
) -> Result<(), Memory>
    ensures { OnOk result (list.new ≡ list.old ++ of_cut src.now number cut [] (path_variables src.now step)) }
{
    match program(src).procs.as_slice().get(number as usize) {
        Some(proc) => {
            push_in(alloc, list, src, step, number, proc, cut)?;
            Ok(())
        }
        None => Ok(()),
    }
}

/// Behind what stands there the variables of a condition in their order.
#[tactic(auto, unfolding(crate::specs::Variables::variables))]
fn push_all(
    alloc: Global,
    list: &mut List<Variable>,
    src: &Layered,
    condition: &Condition,
) -> Result<(), Memory>
    ensures { OnOk result (list.new ≡ list.old ++ variables src.now condition.now) }
{
    let program = program(src);
    match *condition {
        Condition::Start(_, _) => {
            push_globals(alloc, list, program.globals.as_slice())?;
        }
        Condition::Keep(step, action) => {
            push_lower(alloc, list, program, step)?;
            push_action(alloc, list, b"X.", program, action)?;
        }
        Condition::Pair(_, step, first, second) => {
            push_lower(alloc, list, program, step)?;
            push_action(alloc, list, b"X.", program, first)?;
            push_action(alloc, list, b"Y.", program, second)?;
        }
        Condition::Fire(step, action) => {
            push_lower(alloc, list, program, step)?;
            push_inputs(alloc, list, b"X.", program, action)?;
        }
        Condition::Path(_, step, proc, cut) => {
            push_cut(alloc, list, src, step, proc, cut)?;
        }
        Condition::Block(step, proc, cut, target) => {
            push_cut(alloc, list, src, step, proc, cut)?;
            push_other(alloc, list, program, target)?;
        }
        Condition::Act(step, action, target) => {
            push_near(alloc, list, b"", program, step)?;
            push_action(alloc, list, b"X.", program, action)?;
            push_other(alloc, list, program, target)?;
        }
    }
    Ok(())
}

/// The variables of a condition in their order, each with its printed name, which is a name of the program with what tells it
/// apart before it: nothing for a global, and for a name of the procedure from whose cut the paths go; `X.` and `Y.` for the
/// parameters and choices of the first action and of the second; `old.` for what was before, at a rank loop; `other.` for the
/// frame of another thread; and `call` with the number of a statement for the choices of the call that stands there. `done`
/// is a bool. Where a number in the condition is of no action, procedure or cut, there is nothing in its place.
///
/// # Errors
///
/// For want of memory.
pub fn variables(
    alloc: Global,
    src: &Layered,
    condition: &Condition,
) -> Result<List<Variable>, Memory>
    ensures { IfOk result (λ found. found ≡ variables src.now condition.now) }
{
    let mut found = List::new(alloc);
    push_all(alloc, &mut found, src, condition)?;
    Ok(found)
}
