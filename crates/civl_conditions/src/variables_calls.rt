// The choices of calls, which a path makes by itself.
ghost use Rattle.std.specs.Prelude.{◌≡◌, ◌<◌, ◌^◌, ◌++◌, map, flat_map, OnOk, IfOk, option_copied};
ghost use Rattle.civl_tree.specs.declared.stmt.Stmt.{out-Stmt};
ghost use Rattle.civl_tree.specs.Numbering.{sizes_of};
ghost use Rattle.civl_meaning.specs.Meaning.{called};
ghost use Rattle.civl_meaning.specs.Layers.{program_at};
ghost use Rattle.civl_conditions.specs.paths.Choices.{action_meant};
ghost use Rattle.civl_conditions.specs.Passed.{refined_at, choices_at};
ghost use Rattle.civl_conditions.specs.Variables.{of_choices, choices_of, layer_choices, call_front, passed_choices, of_passed};

use crate::condition::Variable;
use crate::paths::met_from;
use crate::variables_groups::push_choices;
use civl_layers::Cut;
use civl_names::walks::statements;
use civl_tree::{Action, List, Memory, Name, Proc, Program, Refines, Stmt};
use civl_types::names::{action_named, proc_named};
use itoa::Buffer;
use std::alloc::Global;

/// The action that a procedure means in the program of a layer: what it refines, where its own layer isn't above this one.
fn action_refined<'a>(
    program: &'a Program,
    layer: u32,
    refines: &Option<Refines>,
) -> Option<&'a Action>
    ensures { option_copied result ≡ refined_at program.now layer refines.now }
{
    match refines {
        Some(refines) => {
            if layer < refines.layer {
                return None;
            }
            action_named(program, &refines.action)
        }
        None => None,
    }
}

/// The action that a call of this name means in the program of a layer, where it means one.
pub fn action_called<'a>(program: &'a Program, layer: u32, name: &Name) -> Option<&'a Action>
    ensures { option_copied result ≡ action_meant (called (program_at program.now layer) name.now) }
{
    match action_named(program, name) {
        Some(action) => Some(action),
        None => match proc_named(program, name) {
            Some(proc) => action_refined(program, layer, &proc.refines),
            None => None,
        },
    }
}

/// What stands before the names of the choices of the call with this number.
fn front(alloc: Global, number: u32) -> Result<Vec<u8>, Memory>
    ensures { IfOk result (λ front. front.items ≡ call_front number) }
{
    let mut front = Vec::new(alloc);
    let mut buffer = Buffer::new();
    front.extend_from_slice(b"call")?;
    front.extend_from_slice(buffer.format(number).as_bytes())?;
    front.extend_from_slice(b".")?;
    Ok(front)
}

/// The choices of a call of this name, which has this number.
fn push_called(
    alloc: Global,
    list: &mut List<Variable>,
    program: &Program,
    layer: u32,
    number: u32,
    callee: &Name,
) -> Result<(), Memory>
    ensures { OnOk result (list.new ≡ list.old ++ of_choices (call_front number) (choices_of (called (program_at program.now layer) callee.now))) }
{
    match action_called(program, layer, callee) {
        Some(action) => {
            let front = front(alloc, number)?;
            push_choices(alloc, list, front.as_slice(), action.choices.as_slice())
        }
        None => Ok(()),
    }
}

/// The choices of a statement, which has this number.
fn push_stmt(
    alloc: Global,
    list: &mut List<Variable>,
    program: &Program,
    layer: u32,
    number: u32,
    stmt: &Stmt,
) -> Result<(), Memory>
    ensures { OnOk result (list.new ≡ list.old ++ of_choices (call_front number) (layer_choices (program_at program.now layer) (out-Stmt stmt.now))) }
{
    match stmt {
        Stmt::Call(callee, _, _) => push_called(alloc, list, program, layer, number, callee),
        Stmt::Assign(_, _) => Ok(()),
        Stmt::Assert(_) => Ok(()),
        Stmt::If(_, _, _) => Ok(()),
        Stmt::While(_, _) => Ok(()),
        Stmt::YieldLoop(_, _, _) => Ok(()),
        Stmt::RankLoop(_, _, _, _) => Ok(()),
        Stmt::Yield(_) => Ok(()),
        Stmt::Commit => Ok(()),
        Stmt::Intro(_, _) => Ok(()),
        Stmt::Spawn(_, _) => Ok(()),
    }
}

/// The choices of the statement that has this number among these, where there is one, behind the others; in the program of this layer.
///
/// # Errors
///
/// For want of memory.
pub fn push_choices_at(
    alloc: Global,
    list: &mut List<Variable>,
    program: &Program,
    layer: u32,
    number: u32,
    flat: &[&Stmt],
) -> Result<(), Memory>
    ensures { OnOk result (list.new ≡ list.old ++ choices_at program.now layer (map (λ stmt. stmt.now) flat.now) number) }
{
    match flat.get(number as usize) {
        Some(stmt) => {
            push_stmt(alloc, list, program, layer, number, stmt)?;
            Ok(())
        }
        None => Ok(()),
    }
}

/// The choices of the statements that have these numbers.
fn push_numbers(
    alloc: Global,
    list: &mut List<Variable>,
    program: &Program,
    layer: u32,
    numbers: &[u32],
    flat: &[&Stmt],
) -> Result<(), Memory>
    ensures { OnOk result (list.new ≡ list.old ++ flat_map (choices_at program.now layer (map (λ stmt. stmt.now) flat.now)) numbers.now) }
{
    for number in numbers {
        push_choices_at(alloc, list, program, layer, *number, flat)?;
    }
    Ok(())
}

/// The choices of the calls that some path from a cut passes.
pub(crate) fn push_passed(
    alloc: Global,
    list: &mut List<Variable>,
    program: &Program,
    step: u32,
    proc: &Proc,
    cut: Cut,
) -> Result<(), Memory>
    requires { sizes_of proc.now.body < 2 ^ 32 }
    ensures { OnOk result (list.new ≡ list.old ++ of_passed (passed_choices program.now step proc.now cut)) }
{
    let met = met_from(alloc, proc, cut)?;
    let flat = statements(alloc, &proc.body)?;
    push_numbers(
        alloc,
        list,
        program,
        step.saturating_sub(1),
        met.passed.as_slice(),
        flat.as_slice(),
    )?;
    Ok(())
}
