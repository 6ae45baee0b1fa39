// Whether the statement of a frame fails, and why.
ghost use Rattle.std.specs.Prelude.{ℕ, ◌≡◌, option_copied, IfOk};
ghost use Rattle.civl_tree.specs.declared.stmt.Stmt.{out-Stmt};
ghost use Rattle.civl_tree.specs.rules.Names.{names_in_proc};
ghost use Rattle.civl_firing.specs.Eval.{values_of};
ghost use Rattle.civl_firing.specs.Scope.{frame_values};
ghost use Rattle.civl_meaning.specs.Change.{call_doing, statement_doing};
ghost use Rattle.civl_meaning.specs.Layers.{topmost};
ghost use Rattle.civl_meaning.specs.Meaning.{called};
ghost use Rattle.civl_meaning.specs.Remaining.{rest_of};
ghost use Rattle.civl_meaning.specs.Rest.{head_of};
ghost use Rattle.civl_meaning.specs.inner.Left.{stmt_of};
ghost use Rattle.civl_goal_losses.specs.GoalLosses.{action_number, doing_at, fault, gate_fault};
ghost use Rattle.civl_goal_losses.specs.inner.Faults.{assert_fault, proc_fault};

use crate::losses::Fault;
use civl_bits::Value;
use civl_conditions::action_called;
use civl_firing::expressions::{holds, values};
use civl_firing::firing::gate;
use civl_firing::setting::in_frame;
use civl_firing::{Store, names};
use civl_meaning::remaining::{Numbered, rest_at};
use civl_meaning::{Activation, skipped};
use civl_tree::{Action, Expr, List, Memory, Name, Proc, Program, Stmt};
use std::alloc::Global;

/// The first statement of a plain program in what is still to run.
fn head<'a>(rest: &[Numbered<'a>]) -> Option<&'a Stmt>
    ensures { (end : ℕ) → option_copied result ≡ stmt_of (head_of end (rest_of rest.now)) }
{
    for at in 0..rest.len() {
        if !skipped(rest[at].stmt) {
            return Some(rest[at].stmt);
        }
    }
    None
}

/// The number of an action.
fn action_number(program: &Program, action: &Action) -> usize
    ensures { result ≡ action_number program.now action.now }
{
    names::action(program.actions.as_slice(), &action.name)
}

/// A call of an action with a false gate.
fn gate_fault(program: &Program, store: &Store, action: &Action, args: List<Value>) -> Option<Fault>
    ensures { result ≡ gate_fault program.now store.now action.now args }
{
    let globals = program.globals.as_slice();
    if gate(globals, store, action, args.as_slice()) {
        return None;
    }
    Some(Fault::FalseGate(action_number(program, action), args))
}

/// The values of some expressions in a frame.
fn values_in(
    alloc: Global,
    program: &Program,
    proc: &Proc,
    locals: &[Value],
    exprs: &List<Expr>,
) -> Result<List<Value>, Memory>
    ensures { IfOk result (λ vs. vs ≡ values_of (frame_values program.now.globals proc.now locals.now) exprs.now) }
{
    let setting = in_frame(program.globals.as_slice(), proc, locals);
    values(alloc, &setting, exprs.as_slice())
}

/// A call in a procedure.
fn call_fault(
    alloc: Global,
    program: &Program,
    store: &Store,
    proc: &Proc,
    locals: &[Value],
    name: &Name,
    args: &List<Expr>,
    results: &List<Name>,
) -> Result<Option<Fault>, Memory>
    ensures { IfOk result (λ found. (at next : ℕ) → found ≡ fault program.now store.now
        (call_doing (names_in_proc proc.now) locals.now results.now at next (called (topmost program.now) name.now)
        (values_of (frame_values program.now.globals proc.now locals.now) args.now))) }
{
    match action_called(program, program.layers, name) {
        Some(action) => match values_in(alloc, program, proc, locals, args) {
            Ok(args) => Ok(gate_fault(program, store, action, args)),
            Err(error) => Err(error),
        },
        None => Ok(None),
    }
}

/// An assert in a procedure.
fn assert_fault(program: &Program, proc: &Proc, locals: &[Value], expr: &Expr) -> Option<Fault>
    ensures { result ≡ assert_fault program.now proc.now locals.now expr.now }
{
    if holds(&in_frame(program.globals.as_slice(), proc, locals), expr) {
        return None;
    }
    Some(Fault::FalseAssert)
}

/// A statement of a procedure.
fn stmt_fault(
    alloc: Global,
    program: &Program,
    store: &Store,
    proc: &Proc,
    locals: &[Value],
    stmt: &Stmt,
) -> Result<Option<Fault>, Memory>
    ensures { IfOk result (λ found. (at next : ℕ) → found ≡ fault program.now store.now
        (statement_doing (topmost program.now) proc.now locals.now at next (out-Stmt stmt.now))) }
{
    match stmt {
        Stmt::Call(name, args, results) => {
            call_fault(alloc, program, store, proc, locals, name, args, results)
        }
        Stmt::Assert(expr) => Ok(assert_fault(program, proc, locals, expr)),
        Stmt::Assign(_, _) => Ok(None),
        Stmt::If(_, _, _) => Ok(None),
        Stmt::While(_, _) => Ok(None),
        Stmt::YieldLoop(_, _, _) => Ok(None),
        Stmt::RankLoop(_, _, _, _) => Ok(None),
        Stmt::Yield(_) => Ok(None),
        Stmt::Commit => Ok(None),
        Stmt::Intro(_, _) => Ok(None),
        Stmt::Spawn(_, _) => Ok(None),
    }
}

/// The statement at the place of a frame of this procedure.
fn proc_fault(
    alloc: Global,
    program: &Program,
    store: &Store,
    proc: &Proc,
    frame: &Activation,
) -> Result<Option<Fault>, Memory>
    ensures { IfOk result (λ found. found ≡ proc_fault program.now store.now frame.now proc.now) }
{
    let rest = rest_at(alloc, proc, frame.place)?;
    match head(rest.as_slice()) {
        Some(stmt) => stmt_fault(alloc, program, store, proc, frame.locals.as_slice(), stmt),
        None => Ok(None),
    }
}

/// Why the statement of a frame fails in the topmost program, if it does.
pub(crate) fn fault(
    alloc: Global,
    program: &Program,
    store: &Store,
    frame: &Activation,
) -> Result<Option<Fault>, Memory>
    ensures { IfOk result (λ found. found ≡ fault program.now store.now (doing_at program.now frame.now)) }
{
    match program.procs.as_slice().get(frame.procedure) {
        Some(proc) => proc_fault(alloc, program, store, proc, frame),
        None => Ok(None),
    }
}
