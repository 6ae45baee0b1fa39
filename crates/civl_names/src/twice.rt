// Names that stand twice (E10).
ghost use Rattle.std.specs.Prelude.{◌≡◌, ◌<◌, ◌^◌, ◌++◌, ◌||◌, length, IfOk};
ghost use Rattle.std.specs.List.{list_any};
ghost use Rattle.civl_tree.specs.Numbering.{statements_of};
ghost use Rattle.civl_tree.specs.rules.Names.{has_name, any_twice, names_in_action, names_in_proc, targets_of};
ghost use Rattle.civl_tree.specs.rules.Twice.{stmt_twice};
ghost use Rattle.civl_tree.specs.rules.Rules.{numbers_where, first_of};
ghost use Rattle.civl_names.specs.inner.NameSets.{names_in, declared_in};

use crate::name_set::NameSet;
use crate::named::{any_in, any_twice, any_twice_in};
use crate::walks::statements;
use civl_tree::{Action, List, Memory, Proc, Stmt};
use std::alloc::Global;

/// Whether an action declares a name twice.
fn action_names_twice(alloc: Global, action: &Action) -> Result<bool, Memory>
    ensures { IfOk result (λ twice. twice ≡ any_twice (names_in_action action.now)) }
{
    any_twice_in(
        alloc,
        action.params.as_slice(),
        action.outs.as_slice(),
        action.choices.as_slice(),
    )
}

/// Whether a procedure declares a name twice.
fn proc_names_twice(alloc: Global, proc: &Proc) -> Result<bool, Memory>
    ensures { IfOk result (λ twice. twice ≡ any_twice (names_in_proc proc.now)) }
{
    any_twice_in(
        alloc,
        proc.params.as_slice(),
        proc.outs.as_slice(),
        proc.locals.as_slice(),
    )
}

/// Whether an action declares a name of the set.
#[tactic(auto, using(crate::proofs::Lists::any_append))]
fn action_names_in(globals: &NameSet, action: &Action) -> bool
    ensures { result ≡ list_any (has_name (names_in globals.now)) (names_in_action action.now) }
{
    any_in(globals, action.params.as_slice())
        || any_in(globals, action.outs.as_slice())
        || any_in(globals, action.choices.as_slice())
}

/// Whether a procedure declares a name of the set.
#[tactic(auto, using(crate::proofs::Lists::any_append))]
fn proc_names_in(globals: &NameSet, proc: &Proc) -> bool
    ensures { result ≡ list_any (has_name (names_in globals.now)) (names_in_proc proc.now) }
{
    any_in(globals, proc.params.as_slice())
        || any_in(globals, proc.outs.as_slice())
        || any_in(globals, proc.locals.as_slice())
}

/// Whether an action breaks E10, where these are the names of the globals and of the actions before it.
#[tactic(auto, using(crate::proofs::Lists::any_append))]
pub(crate) fn action_twice(
    alloc: Global,
    globals: &NameSet,
    actions: &NameSet,
    action: &Action,
) -> Result<bool, Memory>
    ensures { IfOk result (λ twice. twice ≡ (has_name (names_in globals.now ++ names_in actions.now) action.now.name || (declared_in (names_in globals.now) (names_in_action action.now) || any_twice (targets_of action.now)))) }
{
    if globals.has(&action.name) || actions.has(&action.name) {
        return Ok(true);
    }
    if action_names_twice(alloc, action)? {
        return Ok(true);
    }
    if action_names_in(globals, action) {
        return Ok(true);
    }
    any_twice(alloc, action.updates.as_slice())
}

/// Whether a procedure breaks E10, outside its statements, where these are the names of the globals, the actions and
/// the procedures before it.
#[tactic(auto, using(crate::proofs::Lists::any_append))]
pub(crate) fn proc_twice(
    alloc: Global,
    globals: &NameSet,
    actions: &NameSet,
    procs: &NameSet,
    proc: &Proc,
) -> Result<bool, Memory>
    ensures { IfOk result (λ twice. twice ≡ (has_name (names_in globals.now ++ (names_in actions.now ++ names_in procs.now)) proc.now.name || declared_in (names_in globals.now) (names_in_proc proc.now))) }
{
    if globals.has(&proc.name) || actions.has(&proc.name) || procs.has(&proc.name) {
        return Ok(true);
    }
    if proc_names_twice(alloc, proc)? {
        return Ok(true);
    }
    Ok(proc_names_in(globals, proc))
}

fn stmt_twice(alloc: Global, stmt: &Stmt) -> Result<bool, Memory>
    ensures { IfOk result (λ twice. twice ≡ stmt_twice stmt.now) }
{
    match stmt {
        Stmt::Call(_, _, results) => { any_twice(alloc, results.as_slice()) }
        Stmt::Assign(_, _) | Stmt::Assert(_) | Stmt::If(_, _, _) | Stmt::While(_, _) => Ok(false),
        Stmt::YieldLoop(_, _, _)
        | Stmt::RankLoop(_, _, _, _)
        | Stmt::Yield(_)
        | Stmt::Commit
        | Stmt::Intro(_, _) => Ok(false),
        Stmt::Spawn(_, _) => Ok(false),
    }
}

/// The number of the first call of a body that names one result twice. The body has fewer than 2^32 statements.
pub(crate) fn first_doubled(alloc: Global, body: &List<Stmt>) -> Result<Option<u32>, Memory>
    requires { length (statements_of body.now) < 2 ^ 32 }
    ensures { IfOk result (λ found. found ≡ first_of (numbers_where stmt_twice 0 (statements_of body.now))) }
{
    let flat = statements(alloc, body)?;
    for (number, stmt) in flat.iter().enumerate() {
        if stmt_twice(alloc, stmt)? {
            return Ok(Some(number as u32));
        }
    }
    Ok(None)
}
