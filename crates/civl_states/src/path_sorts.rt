// The sorts of the variables of paths from a cut.
ghost use Rattle.std.specs.Prelude.{◌≡◌, ◌++◌, ◌∷◌, [], not, map, OnOk};
ghost use Rattle.civl_tree.specs.Numbering.{statements_of};
ghost use Rattle.civl_bodies.specs.Bodies.{ArePassed};
ghost use Rattle.civl_tree.specs.declared.expr.Sort.TheVariants.{Bool as Truth};
ghost use Rattle.civl_tree.specs.rules.Uses.{param_sorts};
ghost use Rattle.civl_conditions.specs.paths.Ends.{is_entry, is_rank_loop};
ghost use Rattle.civl_conditions.specs.Variables.{passed_choices};
ghost use Rattle.civl_states.specs.declared.stores.Existing.TheVariants.{Near};
ghost use Rattle.civl_states.specs.Existing.{existing_sorts};
ghost use Rattle.civl_states.specs.Laying.{calls_at, call_sorts, inner_sorts, path_sorts, sorts_where};

use crate::beginning_choices::number_choices;
use crate::sort_groups::{push_choices, push_globals, push_locals, push_params};
use crate::stores::Existing;
use civl_conditions::paths::{is_entry, is_rank_loop};
use civl_layers::{Cut, CutKind};
use civl_terms::Memory;
use civl_tree::{Proc, Program, Sort, Stmt};

/// The old globals, at a rank loop.
fn push_old_globals(
    sorts: &mut Vec<Sort>,
    program: &Program,
    step: u32,
    kind: CutKind,
) -> Result<(), Memory>
    ensures { OnOk result (sorts.new.items ≡ sorts.old.items ++ sorts_where (is_rank_loop kind) (existing_sorts (Near step) program.now)) }
{
    if is_rank_loop(kind) {
        push_globals(sorts, program, Existing::Near(step))?;
    }
    Ok(())
}

/// The outputs and locals, but for the entry.
fn push_inner(sorts: &mut Vec<Sort>, proc: &Proc, kind: CutKind) -> Result<(), Memory>
    ensures { OnOk result (sorts.new.items ≡ sorts.old.items ++ sorts_where (not (is_entry kind)) (inner_sorts proc.now)) }
{
    if !is_entry(kind) {
        push_params(sorts, proc.outs.as_slice())?;
        push_locals(sorts, proc.locals.as_slice())?;
    }
    Ok(())
}

/// The old outputs, at a rank loop.
fn push_old_outs(sorts: &mut Vec<Sort>, proc: &Proc, kind: CutKind) -> Result<(), Memory>
    ensures { OnOk result (sorts.new.items ≡ sorts.old.items ++ sorts_where (is_rank_loop kind) (param_sorts proc.now.outs)) }
{
    if is_rank_loop(kind) {
        push_params(sorts, proc.outs.as_slice())?;
    }
    Ok(())
}

/// A bool, where there is one.
fn push_flag(sorts: &mut Vec<Sort>, has: bool) -> Result<(), Memory>
    ensures { OnOk result (sorts.new.items ≡ sorts.old.items ++ sorts_where has (Truth ∷ [])) }
{
    if has {
        sorts.push(Sort::Bool)?;
    }
    Ok(())
}

/// The choices of the statements with these numbers.
fn push_numbers(
    sorts: &mut Vec<Sort>,
    program: &Program,
    layer: u32,
    flat: &[&Stmt],
    numbers: &[u32],
) -> Result<(), Memory>
    ensures { OnOk result (sorts.new.items ≡ sorts.old.items ++ call_sorts (calls_at program.now layer (map (λ s. s.now) flat.now) numbers.now)) }
{
    for number in numbers {
        push_choices(sorts, number_choices(program, layer, flat, *number))?;
    }
    Ok(())
}

/// Those of the paths from a cut of a procedure.
pub(crate) fn push_path(
    sorts: &mut Vec<Sort>,
    program: &Program,
    step: u32,
    proc: &Proc,
    cut: Cut,
    flat: &[&Stmt],
    passed: &[u32],
) -> Result<(), Memory>
    requires flat { map (λ s. s.now) flat.now ≡ statements_of proc.now.body }
    requires passed { ArePassed proc.now cut passed.now }
    ensures { OnOk result (sorts.new.items ≡ sorts.old.items ++ path_sorts program.now step proc.now cut.kind (passed_choices program.now step proc.now cut)) }
{
    push_globals(sorts, program, Existing::Near(step))?;
    push_old_globals(sorts, program, step, cut.kind)?;
    push_params(sorts, proc.params.as_slice())?;
    push_inner(sorts, proc, cut.kind)?;
    push_old_outs(sorts, proc, cut.kind)?;
    push_flag(sorts, !is_entry(cut.kind))?;
    push_flag(sorts, is_rank_loop(cut.kind))?;
    push_numbers(sorts, program, step.saturating_sub(1), flat, passed)?;
    Ok(())
}
