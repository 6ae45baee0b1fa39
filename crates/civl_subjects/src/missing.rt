// Actions that don't exist where they are needed (E33).
ghost use Rattle.std.specs.Prelude.{◌≡◌, option_copied};
ghost use Rattle.civl_tree.specs.declared.stmt.Stmt.{out-Stmt};
ghost use Rattle.civl_tree.specs.rules.Names.{action_named, proc_named};
ghost use Rattle.civl_layers.specs.NotThere.{action_missing, call_missing, form_missing, refined_missing, refines_missing, run_missing};
ghost use Rattle.civl_layers.specs.Ranges.{life_end};
ghost use Rattle.civl_yields.specs.Movers.{proc_action};
ghost use Rattle.civl_subjects.specs.Layers.{form_absent, name_of_action, refines_absent, stmt_absent, thread_absent};

use crate::hidden::exists_through;
use crate::layers::refined_action;
use civl_tree::{Action, Name, Proc, Program, Refines, Stmt, Thread};
use civl_types::names::{action_named, proc_named};
use civl_yields::called_action;

fn name_of_action<'a>(action: Option<&'a Action>) -> Option<&'a Name>
    ensures { option_copied result ≡ name_of_action (option_copied action.entry) }
{
    match action {
        Some(action) => Some(&action.name),
        None => None,
    }
}

/// The action that the procedure of this name refines.
fn proc_action<'a>(program: &'a Program, callee: &Name) -> Option<&'a Action>
    ensures { option_copied result ≡ proc_action program.now (proc_named program.now callee.now) }
{
    match proc_named(program, callee) {
        Some(proc) => refined_action(program, &proc.refines),
        None => None,
    }
}

/// Whether the refined action doesn't exist in the procedure's layer.
fn refines_missing(program: &Program, refines: &Option<Refines>) -> bool
    ensures { result ≡ refines_missing program.now refines.now }
{
    match refines {
        Some(refines) => match action_named(program, &refines.action) {
            Some(action) => {
                !exists_through(refines.layer, refines.layer, action.first, action.last)
            }
            None => false,
        },
        None => false,
    }
}

/// The refined action, where it doesn't exist in the procedure's layer.
pub(crate) fn refines_absent<'a>(
    program: &'a Program,
    refines: &Option<Refines>,
) -> Option<&'a Name>
    ensures { option_copied result ≡ refines_absent program.now refines.now }
{
    if refines_missing(program, refines) {
        return name_of_action(refined_action(program, refines));
    }
    None
}

/// Whether an action, where there is one, doesn't exist in all layers from this one to that one.
fn action_missing(from: u32, to: u32, action: Option<&Action>) -> bool
    ensures { result ≡ action_missing from to (option_copied action.entry) }
{
    match action {
        Some(action) => !exists_through(from, to, action.first, action.last),
        None => false,
    }
}

/// Whether the action of what a procedure refines doesn't exist from the procedure's layer to this one.
fn refined_missing(program: &Program, to: u32, refines: &Option<Refines>) -> bool
    ensures { result ≡ refined_missing program.now to refines.now }
{
    match refines {
        Some(refines) => {
            action_missing(refines.layer, to, action_named(program, &refines.action))
        }
        None => false,
    }
}

/// The same of the procedure of this name.
fn run_missing(program: &Program, to: u32, callee: &Name) -> bool
    ensures { result ≡ run_missing program.now to (proc_named program.now callee.now) }
{
    match proc_named(program, callee) {
        Some(proc) => refined_missing(program, to, &proc.refines),
        None => false,
    }
}

/// The same of a call in a life to this layer.
fn call_missing(program: &Program, to: u32, callee: &Name) -> bool
    ensures { result ≡ call_missing program.now to (action_named program.now callee.now) (proc_named program.now callee.now) }
{
    match action_named(program, callee) {
        Some(action) => !exists_through(0, to, action.first, action.last),
        None => run_missing(program, to, callee),
    }
}

/// The same of a statement.
fn form_missing(program: &Program, to: u32, stmt: &Stmt) -> bool
    ensures { result ≡ form_missing program.now to (out-Stmt stmt.now) }
{
    match stmt {
        Stmt::Call(callee, _, _) => call_missing(program, to, callee),
        Stmt::Spawn(callee, _) => run_missing(program, to, callee),
        Stmt::Assign(_, _) | Stmt::Assert(_) | Stmt::If(_, _, _) | Stmt::While(_, _) => false,
        Stmt::YieldLoop(_, _, _) | Stmt::RankLoop(_, _, _, _) => false,
        Stmt::Yield(_) | Stmt::Commit | Stmt::Intro(_, _) => false,
    }
}

/// The last layer of the life of a procedure's body.
fn life_end(program: &Program, refines: &Option<Refines>) -> u32
    ensures { result ≡ life_end program.now refines.now }
{
    match refines {
        Some(refines) => refines.layer.saturating_sub(1),
        None => program.layers,
    }
}

/// The action that a statement calls, or that of the procedure which it calls or spawns.
fn form_absent<'a>(program: &'a Program, stmt: &Stmt) -> Option<&'a Name>
    ensures { option_copied result ≡ form_absent program.now (out-Stmt stmt.now) }
{
    match stmt {
        Stmt::Call(callee, _, _) => name_of_action(called_action(program, callee)),
        Stmt::Spawn(callee, _) => name_of_action(proc_action(program, callee)),
        Stmt::Assign(_, _) | Stmt::Assert(_) | Stmt::If(_, _, _) | Stmt::While(_, _) => None,
        Stmt::YieldLoop(_, _, _) | Stmt::RankLoop(_, _, _, _) => None,
        Stmt::Yield(_) | Stmt::Commit | Stmt::Intro(_, _) => None,
    }
}

/// The same, where it doesn't exist as long as the procedure.
pub(crate) fn stmt_absent<'a>(program: &'a Program, proc: &Proc, stmt: &Stmt) -> Option<&'a Name>
    ensures { option_copied result ≡ stmt_absent program.now proc.now stmt.now }
{
    if form_missing(program, life_end(program, &proc.refines), stmt) {
        return form_absent(program, stmt);
    }
    None
}

/// The action of the procedure that a thread runs, where it doesn't exist as long as the thread.
pub(crate) fn thread_absent<'a>(program: &'a Program, thread: &Thread) -> Option<&'a Name>
    ensures { option_copied result ≡ thread_absent program.now thread.now }
{
    if run_missing(program, program.layers, &thread.callee) {
        return name_of_action(proc_action(program, &thread.callee));
    }
    None
}
