// The statement that fails.
ghost use Rattle.std.specs.Prelude.{◌≡◌, map, IfOk};
ghost use Rattle.std.specs.Option.{option_map_or};
ghost use Rattle.civl_tree.specs.declared.stmt.Stmt.{out-Stmt};
ghost use Rattle.civl_tree.specs.declared.stmt.Stmt.TheOpen as form;
ghost use Rattle.civl_tree.specs.Numbering.{statements_of, statement_at};
ghost use Rattle.civl_firing.specs.Eval.{values_of};
ghost use Rattle.civl_firing.specs.Scope.{frame_values};
ghost use Rattle.civl_firing.specs.Truth.{place_of};
ghost use Rattle.civl_losses.specs.Losses.{layer_fails, gate_loss, is_failure};
ghost use Rattle.civl_losses.specs.inner.Routes.{course_on, end_of};

use crate::arriving::is_failure;
use crate::loss::Loss;
use crate::route::Route;
use civl_conditions::action_called;
use civl_firing::expressions::values;
use civl_firing::names::action;
use civl_firing::setting::in_frame;
use civl_tree::{Action, Expr, List, Memory, Name, Stmt};
use std::alloc::Global;

/// The call of an action whose gate is false.
fn false_gate(
    alloc: Global,
    route: &Route<'_>,
    meant: &Action,
    args: &List<Expr>,
) -> Result<Loss, Memory>
    ensures { IfOk result (λ loss. loss ≡ Loss.FalseGate (place_of (map (λ a. a.name) route.now.program.now.actions) meant.now.name)
        (values_of (frame_values route.now.program.now.globals route.now.proc.now route.now.walked.now.end.locals) args.now)) }
{
    let globals = route.program.globals.as_slice();
    let frame = in_frame(globals, route.proc, route.walked.end.locals.as_slice());
    let inputs = values(alloc, &frame, args.as_slice())?;
    let number = action(route.program.actions.as_slice(), &meant.name);
    Ok(Loss::FalseGate(number, inputs))
}

/// A call that fails.
fn call_fails(
    alloc: Global,
    route: &Route<'_>,
    callee: &Name,
    args: &List<Expr>,
    results: &List<Name>,
) -> Result<Loss, Memory>
    ensures { IfOk result (λ loss. loss ≡ layer_fails (course_on route.now) (end_of route.now)
        (form.Call callee.now args.now results.now)) }
{
    match action_called(route.program, route.step.saturating_sub(1), callee) {
        Some(meant) => false_gate(alloc, route, meant, args),
        None => Ok(Loss::FalseAssert),
    }
}

/// A statement that fails.
fn stmt_fails(alloc: Global, route: &Route<'_>, stmt: &Stmt) -> Result<Loss, Memory>
    ensures { IfOk result (λ loss. loss ≡ layer_fails (course_on route.now) (end_of route.now) (out-Stmt stmt.now)) }
{
    match stmt {
        Stmt::Call(callee, args, results) => call_fails(alloc, route, callee, args, results),
        Stmt::Assert(_) => Ok(Loss::FalseAssert),
        Stmt::Assign(_, _) => Ok(Loss::FalseAssert),
        Stmt::If(_, _, _) => Ok(Loss::FalseAssert),
        Stmt::While(_, _) => Ok(Loss::FalseAssert),
        Stmt::YieldLoop(_, _, _) => Ok(Loss::FalseAssert),
        Stmt::RankLoop(_, _, _, _) => Ok(Loss::FalseAssert),
        Stmt::Yield(_) => Ok(Loss::FalseAssert),
        Stmt::Commit => Ok(Loss::FalseAssert),
        Stmt::Intro(_, _) => Ok(Loss::FalseAssert),
        Stmt::Spawn(_, _) => Ok(Loss::FalseAssert),
    }
}

/// The statement before which the path ends, where it fails.
fn failing(alloc: Global, route: &Route<'_>) -> Result<Loss, Memory>
    requires stmts { map (λ s. s.now) route.now.stmts.now ≡ statements_of route.now.proc.now.body }
    ensures { IfOk result (λ loss. loss ≡ option_map_or (λ s. layer_fails (course_on route.now) (end_of route.now) (out-Stmt s))
        (statement_at route.now.proc.now.body route.now.walked.now.at) Loss.FalseAssert) }
{
    match route.stmts.get(route.walked.at) {
        Some(stmt) => stmt_fails(alloc, route, stmt),
        None => Ok(Loss::FalseAssert),
    }
}

/// Gate: the statement that fails, if one does.
pub(crate) fn gate_loss(alloc: Global, route: &Route<'_>) -> Result<Option<Loss>, Memory>
    requires stmts { map (λ s. s.now) route.now.stmts.now ≡ statements_of route.now.proc.now.body }
    ensures { IfOk result (λ found. found ≡ gate_loss (course_on route.now) route.now.walked.now.at
        (is_failure route.now.walked.now.ending) (end_of route.now)) }
{
    if !is_failure(route.walked.ending) {
        return Ok(None);
    }
    match failing(alloc, route) {
        Ok(loss) => Ok(Some(loss)),
        Err(error) => Err(error),
    }
}
