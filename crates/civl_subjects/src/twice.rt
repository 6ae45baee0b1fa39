// The first name that stands for two things (E10).
ghost use Rattle.std.specs.Prelude.{◌≡◌, ◌++◌, [], option_copied, IfOk, take};
ghost use Rattle.civl_tree.specs.rules.Names.{action_names, global_names, names_in_action, names_in_proc, proc_names, targets_of};
ghost use Rattle.civl_subjects.specs.Twice.{action_again, first_again, global_again, name_again, proc_again, stmt_again};

use crate::naming::{
    first_again, front, global_names, is_action, is_global, is_proc, lent, names_in_action,
    targets_of,
};
use civl_linear::names_in_proc;
use civl_tree::{Action, Global, Memory, Name, Proc, Program, Stmt};
use std::alloc::Global as Alloc;

/// The name of a global that has that of an earlier one.
pub(crate) fn global_again<'a>(
    program: &Program,
    place: usize,
    global: &'a Global,
) -> Option<&'a Name>
    ensures { option_copied result ≡ global_again program.now place global.now }
{
    if is_global(front(program.globals.as_slice(), place), &global.name) {
        return Some(&global.name);
    }
    None
}

/// The name of an action that has that of a global or an earlier action.
#[tactic(auto, using(civl_names::proofs::Lists::any_append))]
fn action_named_again<'a>(program: &Program, place: usize, action: &'a Action) -> Option<&'a Name>
    ensures { option_copied result
        ≡ name_again (global_names program.now.globals ++ action_names (take place program.now.actions)) action.now.name }
{
    if is_global(program.globals.as_slice(), &action.name)
        || is_action(front(program.actions.as_slice(), place), &action.name)
    {
        return Some(&action.name);
    }
    None
}

/// The name of a procedure that has that of a global, an action or an earlier procedure.
#[tactic(auto, using(civl_names::proofs::Lists::any_append))]
fn proc_named_again<'a>(program: &Program, place: usize, proc: &'a Proc) -> Option<&'a Name>
    ensures { option_copied result
        ≡ name_again (global_names program.now.globals ++ (action_names program.now.actions ++ proc_names
        (take place program.now.procs))) proc.now.name }
{
    if is_global(program.globals.as_slice(), &proc.name)
        || is_action(program.actions.as_slice(), &proc.name)
        || is_proc(front(program.procs.as_slice(), place), &proc.name)
    {
        return Some(&proc.name);
    }
    None
}

/// The first parameter, output or choice of an action that has the name of a global or an earlier one of these.
fn declared_in_action<'a>(
    alloc: Alloc,
    program: &'a Program,
    action: &'a Action,
) -> Result<Option<&'a Name>, Memory>
    ensures { IfOk result (λ again. option_copied again ≡ first_again (global_names program.now.globals) (names_in_action action.now)) }
{
    let own = names_in_action(alloc, action)?;
    first_again(global_names(alloc, program)?, &own)
}

/// The first target that an action updates again.
fn updated_again(alloc: Alloc, action: &Action) -> Result<Option<&Name>, Memory>
    ensures { IfOk result (λ again. option_copied again ≡ first_again [] (targets_of action.now)) }
{
    let targets = targets_of(alloc, action)?;
    first_again(Vec::new(alloc), &targets)
}

/// The first name of an action that stands for two things.
pub(crate) fn action_again<'a>(
    alloc: Alloc,
    program: &'a Program,
    place: usize,
    action: &'a Action,
) -> Result<Option<&'a Name>, Memory>
    ensures { IfOk result (λ again. option_copied again ≡ action_again program.now place action.now) }
{
    if let Some(name) = action_named_again(program, place, action) {
        return Ok(Some(name));
    }
    if let Some(name) = declared_in_action(alloc, program, action)? {
        return Ok(Some(name));
    }
    updated_again(alloc, action)
}

/// The first parameter, output or local of a procedure that has the name of a global or an earlier one of these.
fn declared_in_proc<'a>(
    alloc: Alloc,
    program: &'a Program,
    proc: &'a Proc,
) -> Result<Option<&'a Name>, Memory>
    ensures { IfOk result (λ again. option_copied again ≡ first_again (global_names program.now.globals) (names_in_proc proc.now)) }
{
    let own = names_in_proc(alloc, proc)?;
    first_again(global_names(alloc, program)?, &own)
}

/// The first name of a procedure that stands for two things.
pub(crate) fn proc_again<'a>(
    alloc: Alloc,
    program: &'a Program,
    place: usize,
    proc: &'a Proc,
) -> Result<Option<&'a Name>, Memory>
    ensures { IfOk result (λ again. option_copied again ≡ proc_again program.now place proc.now) }
{
    if let Some(name) = proc_named_again(program, place, proc) {
        return Ok(Some(name));
    }
    declared_in_proc(alloc, program, proc)
}

/// The first result that a call names again.
fn result_again(alloc: Alloc, results: &[Name]) -> Result<Option<&Name>, Memory>
    ensures { IfOk result (λ again. option_copied again ≡ first_again [] results.now) }
{
    let names = lent(alloc, results)?;
    first_again(Vec::new(alloc), &names)
}

/// The first name of a statement that stands for two things.
pub(crate) fn stmt_again(alloc: Alloc, stmt: &Stmt) -> Result<Option<&Name>, Memory>
    ensures { IfOk result (λ again. option_copied again ≡ stmt_again stmt.now) }
{
    match stmt {
        Stmt::Call(_, _, results) => result_again(alloc, results.as_slice()),
        Stmt::Assign(_, _) => Ok(None),
        Stmt::Assert(_) => Ok(None),
        Stmt::If(_, _, _) => Ok(None),
        Stmt::While(_, _) => Ok(None),
        Stmt::YieldLoop(_, _, _) => Ok(None),
        Stmt::RankLoop(_, _, _, _) => Ok(None),
        Stmt::Yield(_) => Ok(None),
        Stmt::Commit => Ok(None),
        Stmt::Intro(_, _) => Ok(None),
        Stmt::Spawn(_, _) => Ok(None),
    }
}
