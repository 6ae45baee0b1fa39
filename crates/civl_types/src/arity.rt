// Numbers of arguments, results and updates (E23), and the sorts of results (a part of E21).
ghost use Rattle.std.specs.Prelude.{◌≡◌, ◌||◌, map, not, option_copied};
ghost use Rattle.std.specs.List.{list_any};
ghost use Rattle.civl_tree.specs.rules.Names.{has_name, param_names, targets_of, action_named, callee_signature};
ghost use Rattle.civl_tree.specs.rules.Arity.{action_arity, with_arity, refines_arity, call_arity, thread_arity, stmt_arity};
ghost use Rattle.civl_tree.specs.rules.Sorted.{results_missorted, form_missorted, stmt_missorted};
ghost use Rattle.civl_tree.specs.rules.Uses.{given_sorts, param_sorts, serves, place_sort, Only as OnlySort};
ghost use Rattle.civl_tree.specs.declared.stmt.Stmt.{out-Stmt};
ghost use Rattle.civl_types.specs.Views.{signature_of};

use crate::names::{Signature, action_named, callee_signature, proc_named, same_name};
use crate::rule::TypingRule;
use crate::sorts::same_sort;
use crate::uses::stmt_uses_break;
use crate::view::place_sort;
use civl_tree::{Action, Expr, List, Name, Param, Proc, Program, Sort, Stmt, Update};

/// Whether an action breaks E23: an output has no update.
pub(crate) fn action_arity(action: &Action) -> bool
    ensures { result ≡ action_arity action.now }
{
    outs_arity(action, action.outs.as_slice())
}

/// Whether one of these updates is of this name.
pub fn is_updated(updates: &[Update], name: &Name) -> bool
    ensures { result ≡ has_name (map (λ update. update.target) updates.now) name.now }
{
    for update in updates {
        if same_name(name, &update.target) {
            return true;
        }
    }
    false
}

fn outs_arity(action: &Action, outs: &[Param]) -> bool
    ensures { result ≡ list_any (λ out. not (has_name (targets_of action.now) out)) (param_names outs.now) }
{
    for out in outs {
        if !is_updated(action.updates.as_slice(), &out.name) {
            return true;
        }
    }
    false
}

fn with_arity(values: &List<Expr>, action: Option<&Action>) -> bool
    ensures { result ≡ with_arity values.now (option_copied action.entry) }
{
    match action {
        Some(action) => values.len() != action.choices.len(),
        None => false,
    }
}

/// Whether the `refines` of a procedure breaks E23.
pub(crate) fn refines_arity(program: &Program, proc: &Proc) -> bool
    ensures { result ≡ refines_arity program.now proc.now.refines }
{
    match &proc.refines {
        Some(refines) => with_arity(&refines.with, action_named(program, &refines.action)),
        None => false,
    }
}

fn call_arity(args: &List<Expr>, results: &List<Name>, signature: Option<Signature<'_>>) -> bool
    ensures { result ≡ call_arity args.now results.now (signature_of signature.entry) }
{
    match signature {
        Some(signature) => args.len() != signature.params.len()
            || results.len() != signature.outs.len(),
        None => false,
    }
}

/// Whether a thread with these arguments breaks E23, where it is to run this procedure.
pub(crate) fn thread_arity(args: &List<Expr>, proc: Option<&Proc>) -> bool
    ensures { result ≡ thread_arity args.now (option_copied proc.entry) }
{
    match proc {
        Some(proc) => args.len() != proc.params.len() || proc.outs.len() != 0,
        None => false,
    }
}

/// Whether a statement breaks E23.
pub(crate) fn stmt_arity(program: &Program, stmt: &Stmt) -> bool
    ensures { result ≡ stmt_arity program.now stmt.now }
{
    match stmt {
        Stmt::Call(callee, args, results) => call_arity(
            args,
            results,
            callee_signature(program, callee),
        ),
        Stmt::Spawn(callee, args) => thread_arity(args, proc_named(program, callee)),
        Stmt::Assign(_, _) | Stmt::Assert(_) | Stmt::If(_, _, _) | Stmt::While(_, _) => false,
        Stmt::YieldLoop(_, _, _)
        | Stmt::RankLoop(_, _, _, _)
        | Stmt::Yield(_)
        | Stmt::Commit
        | Stmt::Intro(_, _) => false,
    }
}

fn result_serves(proc: &Proc, result_name: &Name, sort: Sort) -> bool
    ensures { result ≡ serves (place_sort proc.now result_name.now) (OnlySort sort) }
{
    match place_sort(proc, result_name) {
        Some(other) => same_sort(other, sort),
        None => false,
    }
}

fn results_missorted(proc: &Proc, results: &[Name], outs: &[Param]) -> bool
    ensures { result ≡ results_missorted proc.now results.now (param_sorts outs.now) }
{
    for (at, name) in results.iter().enumerate() {
        if at >= outs.len() {
            return false;
        }
        if !result_serves(proc, name, outs[at].sort) {
            return true;
        }
    }
    false
}

fn call_missorted(proc: &Proc, results: &List<Name>, signature: Option<Signature<'_>>) -> bool
    ensures { result ≡ results_missorted proc.now results.now (given_sorts (signature_of signature.entry)) }
{
    match signature {
        Some(signature) => results_missorted(proc, results.as_slice(), signature.outs),
        None => results_missorted(proc, results.as_slice(), &[]),
    }
}

/// Whether a result of a statement breaks E21.
fn form_missorted(program: &Program, proc: &Proc, stmt: &Stmt) -> bool
    ensures { result ≡ form_missorted program.now proc.now (out-Stmt stmt.now) }
{
    match stmt {
        Stmt::Call(callee, _, results) => call_missorted(
            proc,
            results,
            callee_signature(program, callee),
        ),
        Stmt::Assign(_, _) | Stmt::Assert(_) | Stmt::If(_, _, _) | Stmt::While(_, _) => false,
        Stmt::YieldLoop(_, _, _)
        | Stmt::RankLoop(_, _, _, _)
        | Stmt::Yield(_)
        | Stmt::Commit
        | Stmt::Intro(_, _) => false,
        Stmt::Spawn(_, _) => false,
    }
}

/// Whether a statement breaks E21.
pub(crate) fn stmt_missorted(program: &Program, proc: &Proc, stmt: &Stmt) -> bool
    ensures { result ≡ stmt_missorted program.now proc.now stmt.now }
{
    stmt_uses_break(TypingRule::Sorts, program, proc, stmt) || form_missorted(program, proc, stmt)
}
