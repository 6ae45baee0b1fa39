// The variables of goals.
ghost use Rattle.std.specs.Prelude.{◌≡◌, ◌+◌, ◌<◌, ◌^◌, ◌++◌, [], codes, OnOk, IfOk};
ghost use Rattle.civl_tree.specs.Numbering.{statements_of};
ghost use Rattle.civl_conditions.specs.Variables.{of_globals};
ghost use Rattle.civl_conditions.specs.Steps.{of_proc};
ghost use Rattle.civl_conditions.specs.Passed.{choices_at};
ghost use Rattle.civl_goals.specs.Outlines.{top_globals};
ghost use Rattle.civl_goals.specs.Variables.{of_names, of_frame, of_statement, variables};

use crate::goal::Goal;
use crate::sayings::exists_on_top;
use civl_conditions::{
    Condition, Variable, push_choices_at, push_globals, push_locals, push_params, push_variable,
    variables as condition_variables,
};
use civl_layers::{Layered, program};
use civl_names::walks::statements;
use civl_tree::{List, Memory, Proc, Program};
use std::alloc::Global as Alloc;

// ---- globals

/// The globals of the topmost program.
fn push_top(alloc: Alloc, list: &mut List<Variable>, program: &Program) -> Result<(), Memory>
    ensures { OnOk result (list.new ≡ list.old ++ of_globals [] (top_globals program.now)) }
{
    let globals = program.globals.as_slice();
    for global in globals {
        if exists_on_top(program, global) {
            push_variable(alloc, list, b"", &global.name, global.sort)?;
        }
    }
    Ok(())
}

// ---- frames

/// The parameters, outputs and locals of a procedure.
fn push_names(
    alloc: Alloc,
    list: &mut List<Variable>,
    front: &[u8],
    proc: &Proc,
) -> Result<(), Memory>
    ensures { OnOk result (list.new ≡ list.old ++ of_names front.now proc.now) }
{
    push_params(alloc, list, front, proc.params.as_slice())?;
    push_params(alloc, list, front, proc.outs.as_slice())?;
    push_locals(alloc, list, front, proc.locals.as_slice())?;
    Ok(())
}

/// Those of the procedure with this number, where there is one.
fn push_frame(
    alloc: Alloc,
    list: &mut List<Variable>,
    front: &[u8],
    program: &Program,
    number: u32,
) -> Result<(), Memory>
    ensures { OnOk result (list.new ≡ list.old ++ of_frame front.now program.now number) }
{
    match program.procs.as_slice().get(number as usize) {
        Some(proc) => {
            push_names(alloc, list, front, proc)?;
            Ok(())
        }
        None => Ok(()),
    }
}

// ---- calls

/// The choices of the statement of a procedure that has this number.
fn push_in(
    alloc: Alloc,
    list: &mut List<Variable>,
    program: &Program,
    number: u32,
    proc: &Proc,
) -> Result<(), Memory>
    ensures { OnOk result (list.new ≡ list.old ++ choices_at program.now program.now.layers (statements_of proc.now.body) number) }
{
    let flat = statements(alloc, &proc.body)?;
    push_choices_at(
        alloc,
        list,
        program,
        program.layers,
        number,
        flat.as_slice(),
    )
}

/// The choices of a statement of the procedure with this number, where there are both.
fn push_at(
    alloc: Alloc,
    list: &mut List<Variable>,
    program: &Program,
    proc: u32,
    statement: u32,
) -> Result<(), Memory>
    ensures { OnOk result (list.new ≡ list.old ++ of_proc program.now proc [] (λ p. choices_at program.now program.now.layers (statements_of p.body) statement)) }
{
    match program.procs.as_slice().get(proc as usize) {
        Some(proc) => {
            push_in(alloc, list, program, statement, proc)?;
            Ok(())
        }
        None => Ok(()),
    }
}

// ---- all

/// The step that would follow the last one: what conditions say of it, they say of the topmost program.
fn beyond(program: &Program) -> u32
    requires { program.now.layers + 1 < 2 ^ 32 }
    ensures { result ≡ program.now.layers + 1 }
{
    program.layers + 1
}

/// The store, the frame of a root, and the choices of its call.
fn push_statement(
    alloc: Alloc,
    list: &mut List<Variable>,
    program: &Program,
    proc: u32,
    statement: u32,
) -> Result<(), Memory>
    ensures { OnOk result (list.new ≡ list.old ++ of_statement program.now proc statement) }
{
    push_top(alloc, list, program)?;
    push_frame(alloc, list, b"", program, proc)?;
    push_at(alloc, list, program, proc, statement)?;
    Ok(())
}

/// The variables of `Invariant` and of `Thread`.
fn global_variables(alloc: Alloc, program: &Program) -> Result<List<Variable>, Memory>
    ensures { IfOk result (λ found. found ≡ of_globals [] program.now.globals) }
{
    let mut found = List::new(alloc);
    push_globals(alloc, &mut found, program.globals.as_slice())?;
    Ok(found)
}

/// The variables of a goal of one statement.
fn statement_variables(
    alloc: Alloc,
    program: &Program,
    proc: u32,
    statement: u32,
) -> Result<List<Variable>, Memory>
    ensures { IfOk result (λ found. found ≡ of_statement program.now proc statement) }
{
    let mut found = List::new(alloc);
    push_statement(alloc, &mut found, program, proc, statement)?;
    Ok(found)
}

/// The variables of `Other`, where this is the other root.
fn other_variables(
    alloc: Alloc,
    program: &Program,
    proc: u32,
    statement: u32,
    other: u32,
) -> Result<List<Variable>, Memory>
    ensures { IfOk result (λ found. found ≡ of_statement program.now proc statement ++ of_frame (codes "other.") program.now other) }
{
    let mut found = statement_variables(alloc, program, proc, statement)?;
    push_frame(alloc, &mut found, b"other.", program, other)?;
    Ok(found)
}

/// The variables of a goal in their order, each with its printed name, which is a name of the program with what tells it
/// apart before it: nothing for a global and for a name of the root; `call` with the number of the statement for the choices
/// of the call that stands there; `other.` for the frame of another thread; and `X.` for the parameters and choices of the
/// action of `Linear`. Where a number in the goal is of no action, procedure or statement, there is nothing in its place.
///
/// # Errors
///
/// For want of memory.
#[tactic(auto, unfolding(crate::specs::Variables::variables))]
pub fn goal_variables(alloc: Alloc, src: &Layered, goal: &Goal) -> Result<List<Variable>, Memory>
    ensures { IfOk result (λ found. found ≡ variables src.now goal.now) }
{
    let program = program(src);
    match *goal {
        Goal::Invariant | Goal::Thread(_) => {
            let found = global_variables(alloc, program)?;
            Ok(found)
        }
        Goal::Linear(action) => {
            let keep = Condition::Keep(beyond(program), action);
            let kept = condition_variables(alloc, src, &keep)?;
            Ok(kept)
        }
        Goal::Safe(proc, statement)
        | Goal::Keep(proc, statement)
        | Goal::Spawn(proc, statement)
        | Goal::Next(proc, statement) => {
            let found = statement_variables(alloc, program, proc, statement)?;
            Ok(found)
        }
        Goal::Other(proc, statement, other, _) => {
            let found = other_variables(alloc, program, proc, statement, other)?;
            Ok(found)
        }
    }
}
