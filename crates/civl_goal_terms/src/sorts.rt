// The sorts of the variables of goals.
ghost use Rattle.std.specs.Prelude.{◌≡◌, ◌++◌, [], map, filter, slice_get, IfOk, OnOk};
ghost use Rattle.std.specs.Option.{option_map_or};
ghost use Rattle.civl_tree.specs.declared.stmt.Stmt.{out-Stmt};
ghost use Rattle.civl_meaning.specs.Config.{frame_sorts};
ghost use Rattle.civl_meaning.specs.Layers.{topmost};
ghost use Rattle.civl_meaning.specs.Meaning.{called};
ghost use Rattle.civl_conditions.specs.footprints.Agreement.{exists_at};
ghost use Rattle.civl_conditions.specs.Variables.{choices_of, layer_choices};
ghost use Rattle.civl_goal_terms.specs.Formulas.{sorts_of};
ghost use Rattle.civl_goal_terms.specs.inner.Sorted.{top_sorts, sorts_in_frame, choices_in, chosen_sorts, statement_sorts, grouped_sorts};

use civl_conditions::{action_called, exists_at};
use civl_goals::Goal;
use civl_layers::{Layered, program};
use civl_names::walks::statements;
use civl_states::sort_groups::{push_action, push_choices, push_locals, push_params};
use civl_terms::Memory;
use civl_tree::{Choice, Global, List, Name, Proc, Program, Sort, Stmt};
use std::alloc::Global as Alloc;

// ---- groups

/// All globals.
fn push_globals(sorts: &mut Vec<Sort>, globals: &[Global]) -> Result<(), Memory>
    ensures { OnOk result (sorts.new.items ≡ sorts.old.items ++ map (λ g. g.sort) globals.now) }
{
    for global in globals {
        sorts.push(global.sort)?;
    }
    Ok(())
}

/// Those of the globals that exist in a layer.
fn push_existing(sorts: &mut Vec<Sort>, layer: u32, globals: &[Global]) -> Result<(), Memory>
    ensures { OnOk result (sorts.new.items ≡ sorts.old.items ++ map (λ g. g.sort) (filter (exists_at layer) globals.now)) }
{
    for global in globals {
        if exists_at(layer, global) {
            sorts.push(global.sort)?;
        }
    }
    Ok(())
}

/// The globals of the topmost program.
fn push_top(sorts: &mut Vec<Sort>, program: &Program) -> Result<(), Memory>
    ensures { OnOk result (sorts.new.items ≡ sorts.old.items ++ top_sorts program.now) }
{
    push_existing(sorts, program.layers, program.globals.as_slice())
}

/// The parameters, outputs and locals of a procedure.
fn push_frame(sorts: &mut Vec<Sort>, proc: &Proc) -> Result<(), Memory>
    ensures { OnOk result (sorts.new.items ≡ sorts.old.items ++ frame_sorts proc.now) }
{
    push_params(sorts, proc.params.as_slice())?;
    push_params(sorts, proc.outs.as_slice())?;
    push_locals(sorts, proc.locals.as_slice())
}

/// Those of the procedure with this number, where there is one.
fn push_frame_of(sorts: &mut Vec<Sort>, program: &Program, number: u32) -> Result<(), Memory>
    ensures { OnOk result (sorts.new.items ≡ sorts.old.items ++ sorts_in_frame program.now number) }
{
    match program.procs.as_slice().get(number as usize) {
        Some(proc) => {
            push_frame(sorts, proc)?;
            Ok(())
        }
        None => Ok(()),
    }
}

// ---- choices

/// The choices of a call of this name in the topmost program.
fn called_choices<'a>(program: &'a Program, name: &Name) -> &'a [Choice]
    ensures { result.now ≡ choices_of (called (topmost program.now) name.now) }
{
    match action_called(program, program.layers, name) {
        Some(action) => action.choices.as_slice(),
        None => &[],
    }
}

/// The choices of a statement's call.
pub(crate) fn stmt_choices<'a>(program: &'a Program, stmt: &Stmt) -> &'a [Choice]
    ensures { result.now ≡ layer_choices (topmost program.now) (out-Stmt stmt.now) }
{
    match stmt {
        Stmt::Call(callee, _, _) => called_choices(program, callee),
        Stmt::Assign(_, _) => &[],
        Stmt::Assert(_) => &[],
        Stmt::If(_, _, _) => &[],
        Stmt::While(_, _) => &[],
        Stmt::YieldLoop(_, _, _) => &[],
        Stmt::RankLoop(_, _, _, _) => &[],
        Stmt::Yield(_) => &[],
        Stmt::Commit => &[],
        Stmt::Intro(_, _) => &[],
        Stmt::Spawn(_, _) => &[],
    }
}

/// The choices of the statement that has this number among these.
fn number_choices<'a>(program: &'a Program, flat: &[&Stmt], number: u32) -> &'a [Choice]
    ensures { result.now ≡ option_map_or (λ s. layer_choices (topmost program.now) (out-Stmt s)) (slice_get (map (λ s. s.now) flat.now) number) [] }
{
    match flat.get(number as usize) {
        Some(stmt) => stmt_choices(program, stmt),
        None => &[],
    }
}

/// The choices of the statement of a procedure that has this number.
fn push_in(
    alloc: Alloc,
    sorts: &mut Vec<Sort>,
    program: &Program,
    number: u32,
    proc: &Proc,
) -> Result<(), Memory>
    ensures { OnOk result (sorts.new.items ≡ sorts.old.items ++ map (λ c. c.sort) (choices_in program.now proc.now number)) }
{
    let flat = statements(alloc, &proc.body)?;
    push_choices(sorts, number_choices(program, flat.as_slice(), number))
}

/// The choices of a statement of the procedure with this number, where there are both.
fn push_chosen(
    alloc: Alloc,
    sorts: &mut Vec<Sort>,
    program: &Program,
    proc: u32,
    statement: u32,
) -> Result<(), Memory>
    ensures { OnOk result (sorts.new.items ≡ sorts.old.items ++ chosen_sorts program.now proc statement) }
{
    match program.procs.as_slice().get(proc as usize) {
        Some(proc) => {
            push_in(alloc, sorts, program, statement, proc)?;
            Ok(())
        }
        None => Ok(()),
    }
}

// ---- all

/// The store, the frame of a root, and the choices of its call.
fn push_statement(
    alloc: Alloc,
    sorts: &mut Vec<Sort>,
    program: &Program,
    proc: u32,
    statement: u32,
) -> Result<(), Memory>
    ensures { OnOk result (sorts.new.items ≡ sorts.old.items ++ statement_sorts program.now proc statement) }
{
    push_top(sorts, program)?;
    push_frame_of(sorts, program, proc)?;
    push_chosen(alloc, sorts, program, proc, statement)
}

/// The sorts of a goal's variables, group by group.
#[tactic(auto, using(std::proofs::lemmas::List::append_assoc))]
fn push_groups(
    alloc: Alloc,
    sorts: &mut Vec<Sort>,
    program: &Program,
    goal: &Goal,
) -> Result<(), Memory>
    ensures { OnOk result (sorts.new.items ≡ sorts.old.items ++ grouped_sorts program.now goal.now) }
{
    match *goal {
        Goal::Invariant => push_globals(sorts, program.globals.as_slice()),
        Goal::Thread(_) => push_globals(sorts, program.globals.as_slice()),
        Goal::Linear(action) => {
            push_top(sorts, program)?;
            push_action(sorts, program, action)
        }
        Goal::Safe(proc, statement) => push_statement(alloc, sorts, program, proc, statement),
        Goal::Keep(proc, statement) => push_statement(alloc, sorts, program, proc, statement),
        Goal::Spawn(proc, statement) => push_statement(alloc, sorts, program, proc, statement),
        Goal::Next(proc, statement) => push_statement(alloc, sorts, program, proc, statement),
        Goal::Other(proc, statement, other, _) => {
            push_statement(alloc, sorts, program, proc, statement)?;
            push_frame_of(sorts, program, other)
        }
    }
}

/// The sorts of a goal's variables, in their order. Where a number in the goal is of no action, procedure or statement, there is
/// nothing in its place.
///
/// # Errors
///
/// For want of memory.
pub fn goal_sorts(alloc: Alloc, src: &Layered, goal: &Goal) -> Result<List<Sort>, Memory>
    ensures { IfOk result (λ sorts. sorts ≡ sorts_of src.now goal.now) }
{
    let mut sorts = Vec::new(alloc);
    push_groups(alloc, &mut sorts, program(src), goal)?;
    Ok(List::from_vec(sorts))
}
