// The variables of one kind: of globals, parameters, choices and locals.
ghost use Rattle.std.specs.Prelude.{◌≡◌, ◌++◌, ◌∷◌, [], filter, OnOk};
ghost use Rattle.civl_conditions.specs.footprints.Agreement.{exists_at};
ghost use Rattle.civl_conditions.specs.paths.Seen.{exists_near};
ghost use Rattle.civl_conditions.specs.Variables.{variable, flag, of_globals, of_params, of_choices, of_locals, of_instance, lower_globals, near_globals};

use crate::condition::Variable;
use civl_tree::{Action, Choice, Global, List, Local, Memory, Name, Param, Program, Sort};
use std::alloc::Global as Alloc;

/// Puts a variable behind the others, whose name has the front before it.
///
/// # Errors
///
/// For want of memory.
pub fn push_variable(
    alloc: Alloc,
    list: &mut List<Variable>,
    front: &[u8],
    name: &Name,
    sort: Sort,
) -> Result<(), Memory>
    ensures { OnOk result (list.new ≡ list.old ++ variable front.now name.now sort ∷ []) }
{
    let mut bytes = Vec::new(alloc);
    bytes.extend_from_slice(front)?;
    bytes.extend_from_slice(name.as_slice())?;
    let bytes = List::from_vec(bytes);
    list.push(Variable {
        name: Name { bytes },
        sort,
    })
}

/// Puts a bool of this name behind the others.
pub(crate) fn push_flag(alloc: Alloc, list: &mut List<Variable>, bytes: &[u8]) -> Result<(), Memory>
    ensures { OnOk result (list.new ≡ list.old ++ flag bytes.now ∷ []) }
{
    let name = Name::from_slice(alloc, bytes)?;
    list.push(Variable {
        name,
        sort: Sort::Bool,
    })
}

/// The parameters, behind the others.
///
/// # Errors
///
/// For want of memory.
pub fn push_params(
    alloc: Alloc,
    list: &mut List<Variable>,
    front: &[u8],
    params: &[Param],
) -> Result<(), Memory>
    ensures { OnOk result (list.new ≡ list.old ++ of_params front.now params.now) }
{
    for param in params {
        push_variable(alloc, list, front, &param.name, param.sort)?;
    }
    Ok(())
}

/// The choices, behind the others.
pub(crate) fn push_choices(
    alloc: Alloc,
    list: &mut List<Variable>,
    front: &[u8],
    choices: &[Choice],
) -> Result<(), Memory>
    ensures { OnOk result (list.new ≡ list.old ++ of_choices front.now choices.now) }
{
    for choice in choices {
        push_variable(alloc, list, front, &choice.name, choice.sort)?;
    }
    Ok(())
}

/// The locals, behind the others.
///
/// # Errors
///
/// For want of memory.
pub fn push_locals(
    alloc: Alloc,
    list: &mut List<Variable>,
    front: &[u8],
    locals: &[Local],
) -> Result<(), Memory>
    ensures { OnOk result (list.new ≡ list.old ++ of_locals front.now locals.now) }
{
    for local in locals {
        push_variable(alloc, list, front, &local.name, local.sort)?;
    }
    Ok(())
}

/// The parameters and choices of an action.
pub(crate) fn push_instance(
    alloc: Alloc,
    list: &mut List<Variable>,
    front: &[u8],
    action: &Action,
) -> Result<(), Memory>
    ensures { OnOk result (list.new ≡ list.old ++ of_instance front.now action.now) }
{
    push_params(alloc, list, front, action.params.as_slice())?;
    push_choices(alloc, list, front, action.choices.as_slice())
}

// ---- globals

/// Whether a global exists in a layer.
pub fn exists_at(layer: u32, global: &Global) -> bool
    ensures { result ≡ exists_at layer global.now }
{
    global.first <= layer && layer <= global.last
}

/// Whether a global exists in one of the two layers of a step.
pub fn exists_near(step: u32, global: &Global) -> bool
    ensures { result ≡ exists_near step global.now }
{
    exists_at(step.saturating_sub(1), global) || exists_at(step, global)
}

/// All globals, behind the others.
///
/// # Errors
///
/// For want of memory.
pub fn push_globals(
    alloc: Alloc,
    list: &mut List<Variable>,
    globals: &[Global],
) -> Result<(), Memory>
    ensures { OnOk result (list.new ≡ list.old ++ of_globals [] globals.now) }
{
    for global in globals {
        push_variable(alloc, list, b"", &global.name, global.sort)?;
    }
    Ok(())
}

fn push_at(
    alloc: Alloc,
    list: &mut List<Variable>,
    layer: u32,
    globals: &[Global],
) -> Result<(), Memory>
    ensures { OnOk result (list.new ≡ list.old ++ of_globals [] (filter (exists_at layer) globals.now)) }
{
    for global in globals {
        if exists_at(layer, global) {
            push_variable(alloc, list, b"", &global.name, global.sort)?;
        }
    }
    Ok(())
}

/// The globals of the lower layer of a step.
pub(crate) fn push_lower(
    alloc: Alloc,
    list: &mut List<Variable>,
    program: &Program,
    step: u32,
) -> Result<(), Memory>
    ensures { OnOk result (list.new ≡ list.old ++ lower_globals program.now step) }
{
    push_at(
        alloc,
        list,
        step.saturating_sub(1),
        program.globals.as_slice(),
    )
}

fn push_around(
    alloc: Alloc,
    list: &mut List<Variable>,
    front: &[u8],
    step: u32,
    globals: &[Global],
) -> Result<(), Memory>
    ensures { OnOk result (list.new ≡ list.old ++ of_globals front.now (filter (exists_near step) globals.now)) }
{
    for global in globals {
        if exists_near(step, global) {
            push_variable(alloc, list, front, &global.name, global.sort)?;
        }
    }
    Ok(())
}

/// The globals of the two layers of a step.
pub(crate) fn push_near(
    alloc: Alloc,
    list: &mut List<Variable>,
    front: &[u8],
    program: &Program,
    step: u32,
) -> Result<(), Memory>
    ensures { OnOk result (list.new ≡ list.old ++ near_globals front.now program.now step) }
{
    push_around(alloc, list, front, step, program.globals.as_slice())
}
