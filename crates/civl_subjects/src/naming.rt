// Lists of names.
ghost use Rattle.std.specs.Prelude.{◌≡◌, ◌++◌, map, take, option_copied, IfOk, OnOk};
ghost use Rattle.civl_tree.specs.rules.Names.{has_name, global_names, action_names, proc_names, names_in_action, param_names, targets_of};
ghost use Rattle.civl_subjects.specs.Twice.{first_again};

use civl_tree::{Action, Choice, Global, Memory, Name, Param, Proc, Program};
use civl_types::names::same_name;
use std::alloc::Global as Alloc;

/// The first so many of these.
pub(crate) fn front<T>(items: &[T], count: usize) -> &[T]
    ensures { result.now ≡ take count items.now }
{
    if count < items.len() {
        &items[..count]
    } else {
        items
    }
}

/// Whether a name is one of these.
pub(crate) fn is_one(names: &[&Name], name: &Name) -> bool
    ensures { result ≡ has_name (map (λ name. name.now) names.now) name.now }
{
    for other in names {
        if same_name(name, other) {
            return true;
        }
    }
    false
}

/// Whether a name is that of one of these globals.
pub(crate) fn is_global(globals: &[Global], name: &Name) -> bool
    ensures { result ≡ has_name (global_names globals.now) name.now }
{
    for global in globals {
        if same_name(name, &global.name) {
            return true;
        }
    }
    false
}

/// Whether a name is that of one of these actions.
pub(crate) fn is_action(actions: &[Action], name: &Name) -> bool
    ensures { result ≡ has_name (action_names actions.now) name.now }
{
    for action in actions {
        if same_name(name, &action.name) {
            return true;
        }
    }
    false
}

/// Whether a name is that of one of these procedures.
pub(crate) fn is_proc(procs: &[Proc], name: &Name) -> bool
    ensures { result ≡ has_name (proc_names procs.now) name.now }
{
    for proc in procs {
        if same_name(name, &proc.name) {
            return true;
        }
    }
    false
}

/// The names of the globals.
pub(crate) fn global_names(alloc: Alloc, program: &Program) -> Result<Vec<&Name>, Memory>
    ensures { IfOk result (λ names. map (λ name. name.now) names.items ≡ global_names program.now.globals) }
{
    let mut names = Vec::new(alloc);
    for global in program.globals.as_slice() {
        names.push(&global.name)?;
    }
    Ok(names)
}

/// The names of parameters behind others.
fn push_params<'a>(names: &mut Vec<&'a Name>, params: &'a [Param]) -> Result<(), Memory>
    ensures { OnOk result (map (λ name. name.now) names.new.items ≡ map (λ name. name.now) names.old.items ++ param_names params.now) }
{
    for param in params {
        names.push(&param.name)?;
    }
    Ok(())
}

/// The names of choices behind others.
fn push_choices<'a>(names: &mut Vec<&'a Name>, choices: &'a [Choice]) -> Result<(), Memory>
    ensures { OnOk result (map (λ name. name.now) names.new.items
        ≡ map (λ name. name.now) names.old.items ++ map (λ choice. choice.name) choices.now) }
{
    for choice in choices {
        names.push(&choice.name)?;
    }
    Ok(())
}

/// The names that an action declares: its parameters, outputs and choices, in this order.
pub(crate) fn names_in_action(alloc: Alloc, action: &Action) -> Result<Vec<&Name>, Memory>
    ensures { IfOk result (λ names. map (λ name. name.now) names.items ≡ names_in_action action.now) }
{
    let mut names = Vec::new(alloc);
    push_params(&mut names, action.params.as_slice())?;
    push_params(&mut names, action.outs.as_slice())?;
    push_choices(&mut names, action.choices.as_slice())?;
    Ok(names)
}

/// What an action updates.
pub(crate) fn targets_of(alloc: Alloc, action: &Action) -> Result<Vec<&Name>, Memory>
    ensures { IfOk result (λ names. map (λ name. name.now) names.items ≡ targets_of action.now) }
{
    let mut names = Vec::new(alloc);
    for update in action.updates.as_slice() {
        names.push(&update.target)?;
    }
    Ok(names)
}

/// These names, lent.
pub(crate) fn lent(alloc: Alloc, own: &[Name]) -> Result<Vec<&Name>, Memory>
    ensures { IfOk result (λ names. map (λ name. name.now) names.items ≡ own.now) }
{
    let mut names = Vec::new(alloc);
    for name in own {
        names.push(name)?;
    }
    Ok(names)
}

/// The first of these names that is among the earlier ones, or stands among these before.
pub(crate) fn first_again<'a>(
    mut earlier: Vec<&'a Name>,
    names: &[&'a Name],
) -> Result<Option<&'a Name>, Memory>
    ensures { IfOk result (λ again. option_copied again
        ≡ first_again (map (λ name. name.now) earlier.entry.items) (map (λ name. name.now) names.now)) }
{
    for name in names {
        if is_one(&earlier, name) {
            return Ok(Some(*name));
        }
        earlier.push(*name)?;
    }
    Ok(None)
}
