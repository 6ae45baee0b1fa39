// The variables of paths from a cut.
ghost use Rattle.std.specs.Prelude.{◌≡◌, ◌<◌, ◌^◌, ◌++◌, ◌∷◌, [], not, codes, OnOk};
ghost use Rattle.civl_tree.specs.Numbering.{sizes_of};
ghost use Rattle.civl_conditions.specs.paths.Ends.{is_entry, is_rank_loop};
ghost use Rattle.civl_conditions.specs.Variables.{where_has, flag, of_params, of_locals, near_globals, path_variables};

use crate::condition::Variable;
use crate::paths::{is_entry, is_rank_loop};
use crate::variables_calls::push_passed;
use crate::variables_groups::{push_flag, push_locals, push_near, push_params};
use civl_layers::{Cut, CutKind};
use civl_tree::{List, Memory, Proc, Program};
use std::alloc::Global;

/// The old globals, at a rank loop.
fn push_old_globals(
    alloc: Global,
    list: &mut List<Variable>,
    program: &Program,
    step: u32,
    kind: CutKind,
) -> Result<(), Memory>
    ensures { OnOk result (list.new ≡ list.old ++ where_has (is_rank_loop kind) (near_globals (codes "old.") program.now step)) }
{
    if is_rank_loop(kind) {
        push_near(alloc, list, b"old.", program, step)?;
    }
    Ok(())
}

/// The outputs and locals, but for the entry.
fn push_inner(
    alloc: Global,
    list: &mut List<Variable>,
    proc: &Proc,
    kind: CutKind,
) -> Result<(), Memory>
    ensures { OnOk result (list.new ≡ list.old ++ where_has (not (is_entry kind)) (of_params [] proc.now.outs ++ of_locals [] proc.now.locals)) }
{
    if !is_entry(kind) {
        push_params(alloc, list, b"", proc.outs.as_slice())?;
        push_locals(alloc, list, b"", proc.locals.as_slice())?;
    }
    Ok(())
}

/// The old outputs, at a rank loop.
fn push_old_outs(
    alloc: Global,
    list: &mut List<Variable>,
    proc: &Proc,
    kind: CutKind,
) -> Result<(), Memory>
    ensures { OnOk result (list.new ≡ list.old ++ where_has (is_rank_loop kind) (of_params (codes "old.") proc.now.outs)) }
{
    if is_rank_loop(kind) {
        push_params(alloc, list, b"old.", proc.outs.as_slice())?;
    }
    Ok(())
}

/// `done`, but for the entry.
fn push_done(alloc: Global, list: &mut List<Variable>, kind: CutKind) -> Result<(), Memory>
    ensures { OnOk result (list.new ≡ list.old ++ where_has (not (is_entry kind)) (flag (codes "done") ∷ [])) }
{
    if !is_entry(kind) {
        push_flag(alloc, list, b"done")?;
    }
    Ok(())
}

/// The old `done`, at a rank loop.
fn push_old_done(alloc: Global, list: &mut List<Variable>, kind: CutKind) -> Result<(), Memory>
    ensures { OnOk result (list.new ≡ list.old ++ where_has (is_rank_loop kind) (flag (codes "old.done") ∷ [])) }
{
    if is_rank_loop(kind) {
        push_flag(alloc, list, b"old.done")?;
    }
    Ok(())
}

/// The variables of the paths from a cut of a procedure.
pub(crate) fn push_path(
    alloc: Global,
    list: &mut List<Variable>,
    program: &Program,
    step: u32,
    proc: &Proc,
    cut: Cut,
) -> Result<(), Memory>
    requires { sizes_of proc.now.body < 2 ^ 32 }
    ensures { OnOk result (list.new ≡ list.old ++ path_variables program.now step proc.now cut) }
{
    push_near(alloc, list, b"", program, step)?;
    push_old_globals(alloc, list, program, step, cut.kind)?;
    push_params(alloc, list, b"", proc.params.as_slice())?;
    push_inner(alloc, list, proc, cut.kind)?;
    push_old_outs(alloc, list, proc, cut.kind)?;
    push_done(alloc, list, cut.kind)?;
    push_old_done(alloc, list, cut.kind)?;
    push_passed(alloc, list, program, step, proc, cut)?;
    Ok(())
}
