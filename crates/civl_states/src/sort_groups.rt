//! The sorts of one kind of variables: of globals, parameters, choices and locals.
ghost use Rattle.std.specs.Prelude.{◌≡◌, ◌++◌, [], filter, map, OnOk};
ghost use Rattle.civl_tree.specs.rules.Uses.{param_sorts};
ghost use Rattle.civl_conditions.specs.Steps.{of_action};
ghost use Rattle.civl_states.specs.Existing.{passes, existing_sorts};
ghost use Rattle.civl_states.specs.Runs.{instance_sorts};

use crate::stores::{Existing, passes};
use civl_terms::Memory;
use civl_tree::{Action, Choice, Global, Local, Param, Program, Sort};

/// Those of these parameters, behind others.
///
/// # Errors
///
/// For want of memory.
pub fn push_params(sorts: &mut Vec<Sort>, params: &[Param]) -> Result<(), Memory>
    ensures { OnOk result (sorts.new.items ≡ sorts.old.items ++ param_sorts params.now) }
{
    for param in params {
        sorts.push(param.sort)?;
    }
    Ok(())
}

/// Those of these choices, behind others.
///
/// # Errors
///
/// For want of memory.
pub fn push_choices(sorts: &mut Vec<Sort>, choices: &[Choice]) -> Result<(), Memory>
    ensures { OnOk result (sorts.new.items ≡ sorts.old.items ++ map (λ c. c.sort) choices.now) }
{
    for choice in choices {
        sorts.push(choice.sort)?;
    }
    Ok(())
}

/// Those of these locals, behind others.
///
/// # Errors
///
/// For want of memory.
pub fn push_locals(sorts: &mut Vec<Sort>, locals: &[Local]) -> Result<(), Memory>
    ensures { OnOk result (sorts.new.items ≡ sorts.old.items ++ map (λ l. l.sort) locals.now) }
{
    for local in locals {
        sorts.push(local.sort)?;
    }
    Ok(())
}

/// Those of the parameters and choices of an action, behind others.
///
/// # Errors
///
/// For want of memory.
pub fn push_instance(sorts: &mut Vec<Sort>, action: &Action) -> Result<(), Memory>
    ensures { OnOk result (sorts.new.items ≡ sorts.old.items ++ instance_sorts action.now) }
{
    push_params(sorts, action.params.as_slice())?;
    push_choices(sorts, action.choices.as_slice())
}

/// Those of the parameters and choices of the action with this number, where there is one, behind others.
///
/// # Errors
///
/// For want of memory.
pub fn push_action(sorts: &mut Vec<Sort>, program: &Program, number: u32) -> Result<(), Memory>
    ensures { OnOk result (sorts.new.items ≡ sorts.old.items ++ of_action program.now number [] instance_sorts) }
{
    match program.actions.as_slice().get(number as usize) {
        Some(action) => {
            push_instance(sorts, action)?;
            Ok(())
        }
        None => Ok(()),
    }
}

/// Those of the globals among these.
fn push_passing(sorts: &mut Vec<Sort>, which: Existing, globals: &[Global]) -> Result<(), Memory>
    ensures { OnOk result (sorts.new.items ≡ sorts.old.items ++ map (λ g. g.sort) (filter (passes which) globals.now)) }
{
    for global in globals {
        if passes(which, global) {
            sorts.push(global.sort)?;
        }
    }
    Ok(())
}

/// Those of these globals of a program.
pub(crate) fn push_globals(
    sorts: &mut Vec<Sort>,
    program: &Program,
    which: Existing,
) -> Result<(), Memory>
    ensures { OnOk result (sorts.new.items ≡ sorts.old.items ++ existing_sorts which program.now) }
{
    push_passing(sorts, which, program.globals.as_slice())
}
