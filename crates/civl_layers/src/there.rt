// Actions that don't exist where they are needed (E33).
ghost use Rattle.std.specs.Prelude.{◌≡◌, option_copied};
ghost use Rattle.civl_tree.specs.rules.Names.{action_named, proc_named};
ghost use Rattle.civl_tree.specs.declared.stmt.Stmt.{out-Stmt};
ghost use Rattle.civl_layers.specs.NotThere.{action_missing, refined_missing, run_missing, call_missing, form_missing, stmt_missing, refines_missing, thread_missing};

use crate::ranges::{exists_through, life_end};
use civl_tree::{Action, Name, Proc, Program, Refines, Stmt, Thread};
use civl_types::names::{action_named, proc_named};

fn action_missing(from: u32, to: u32, action: Option<&Action>) -> bool
    ensures { result ≡ action_missing from to (option_copied action.entry) }
{
    match action {
        Some(action) => !exists_through(from, to, action.first, action.last),
        None => false,
    }
}

/// Whether the action of what a procedure refines doesn't exist from the procedure's layer to this one.
fn refined_missing(program: &Program, to: u32, refines: &Option<Refines>) -> bool
    ensures { result ≡ refined_missing program.now to refines.now }
{
    match refines {
        Some(refines) => {
            action_missing(refines.layer, to, action_named(program, &refines.action))
        }
        None => false,
    }
}

/// Whether the action of the procedure of this name doesn't exist from the procedure's layer to this one.
fn run_missing(program: &Program, to: u32, callee: &Name) -> bool
    ensures { result ≡ run_missing program.now to (proc_named program.now callee.now) }
{
    match proc_named(program, callee) {
        Some(proc) => refined_missing(program, to, &proc.refines),
        None => false,
    }
}

fn call_missing(program: &Program, to: u32, callee: &Name) -> bool
    ensures { result ≡ call_missing program.now to (action_named program.now callee.now) (proc_named program.now callee.now) }
{
    match action_named(program, callee) {
        Some(action) => !exists_through(0, to, action.first, action.last),
        None => run_missing(program, to, callee),
    }
}

fn form_missing(program: &Program, to: u32, stmt: &Stmt) -> bool
    ensures { result ≡ form_missing program.now to (out-Stmt stmt.now) }
{
    match stmt {
        Stmt::Call(callee, _, _) => call_missing(program, to, callee),
        Stmt::Spawn(callee, _) => run_missing(program, to, callee),
        Stmt::Assign(_, _) => false,
        Stmt::Assert(_) => false,
        Stmt::If(_, _, _) => false,
        Stmt::While(_, _) => false,
        Stmt::YieldLoop(_, _, _) => false,
        Stmt::RankLoop(_, _, _, _) => false,
        Stmt::Yield(_) => false,
        Stmt::Commit => false,
        Stmt::Intro(_, _) => false,
    }
}

/// Whether a statement of a procedure breaks E33.
pub(crate) fn stmt_missing(program: &Program, proc: &Proc, stmt: &Stmt) -> bool
    ensures { result ≡ stmt_missing program.now proc.now stmt.now }
{
    form_missing(program, life_end(program, &proc.refines), stmt)
}

/// Whether a procedure, without its statements, breaks E33.
pub(crate) fn refines_missing(program: &Program, refines: &Option<Refines>) -> bool
    ensures { result ≡ refines_missing program.now refines.now }
{
    match refines {
        Some(refines) => {
            let action = action_named(program, &refines.action);
            action_missing(refines.layer, refines.layer, action)
        }
        None => false,
    }
}

/// Whether a thread breaks E33.
pub(crate) fn thread_missing(program: &Program, thread: &Thread) -> bool
    ensures { result ≡ thread_missing program.now thread.now }
{
    run_missing(program, program.layers, &thread.callee)
}
