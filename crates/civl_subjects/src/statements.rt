// E11, E20, E21 and E22 in items and statements.
ghost use Rattle.std.specs.Prelude.{◌≡◌, map};
ghost use Rattle.civl_tree.specs.declared.stmt.Stmt.{out-Stmt};
ghost use Rattle.civl_tree.specs.rules.Names.{callee_signature, has_name, param_names};
ghost use Rattle.civl_tree.specs.rules.Unknown.{place_unknown, target_unknown};
ghost use Rattle.civl_tree.specs.rules.Uses.{given_sorts, param_sorts};
ghost use Rattle.civl_types.specs.Views.{signature_of};
ghost use Rattle.civl_subjects.specs.Parts.{first_told};
ghost use Rattle.civl_subjects.specs.Places.{action_subject, choice_subject, conditions_subject, front_subject, last_subject, name_subject, proc_subject, refined_subject, result_sort, results_sort, results_subject, stmt_subject, thread_subject, update_subject};
ghost use Rattle.civl_subjects.specs.declared.expr_rule.ExprRule.TheVariants.{Unknown as UnknownRule};
ghost use Rattle.civl_subjects.specs.inner.Meant.{all_meant};

use crate::declared::{declared_subject, locals_subject, params_subject};
use crate::expr_rule::ExprRule;
use crate::naming::is_global;
use crate::subject::Subject;
use crate::uses::{
    same_sort, stmt_expressions, target_subject, thread_arguments, truth_subject, with_subject,
};
use civl_tree::{
    Action, Choice, Local, Name, Param, Proc, Program, Refines, Sort, Stmt, Thread, Update,
};
use civl_types::names::{Signature, action_named, callee_signature, proc_named, same_name};
use civl_types::view::{View, name_sort, old_sort};

/// A name that isn't in scope, under the rule on names.
fn name_subject<'a>(rule: ExprRule, strange: bool, name: &'a Name) -> Option<Subject<'a>>
    ensures { all_meant result ≡ name_subject rule strange name.now }
{
    match rule {
        ExprRule::Unknown => {
            if strange {
                return Some(Subject::Name(name));
            }
            None
        }
        ExprRule::Width => None,
        ExprRule::Sorts => None,
        ExprRule::Index => None,
    }
}

/// `name : sort = expr`
fn choice_subject<'a>(
    rule: ExprRule,
    program: &Program,
    action: &Action,
    choice: &'a Choice,
) -> Option<Subject<'a>>
    ensures { all_meant result ≡ choice_subject rule program.now action.now choice.now }
{
    let declared = declared_subject(rule, false, program.permissions, &choice.name, choice.sort);
    if let Some(subject) = declared {
        return Some(subject);
    }
    target_subject(
        rule,
        &View::Gate(program, action),
        &choice.offer,
        Some(choice.sort),
    )
}

fn choices_subject<'a>(
    rule: ExprRule,
    program: &Program,
    action: &Action,
    choices: &'a [Choice],
) -> Option<Subject<'a>>
    ensures { all_meant result ≡ first_told (choice_subject rule program.now action.now) choices.now }
{
    for choice in choices {
        if let Some(subject) = choice_subject(rule, program, action, choice) {
            return Some(subject);
        }
    }
    None
}

/// Whether a target of an update is neither a global nor an output.
#[tactic(auto, using(civl_names::proofs::Lists::any_append))]
fn target_unknown(program: &Program, action: &Action, target: &Name) -> bool
    ensures { result ≡ target_unknown program.now action.now target.now }
{
    !(is_global(program.globals.as_slice(), target) || is_param(action.outs.as_slice(), target))
}

/// `name := expr`
fn update_subject<'a>(
    rule: ExprRule,
    program: &Program,
    action: &Action,
    update: &'a Update,
) -> Option<Subject<'a>>
    ensures { all_meant result ≡ update_subject rule program.now action.now update.now }
{
    let strange = target_unknown(program, action, &update.target);
    if let Some(subject) = name_subject(rule, strange, &update.target) {
        return Some(subject);
    }
    let guard = View::Guard(program, action);
    let sort = old_sort(&guard, &update.target);
    target_subject(rule, &guard, &update.expr, sort)
}

fn updates_subject<'a>(
    rule: ExprRule,
    program: &Program,
    action: &Action,
    updates: &'a [Update],
) -> Option<Subject<'a>>
    ensures { all_meant result ≡ first_told (update_subject rule program.now action.now) updates.now }
{
    for update in updates {
        if let Some(subject) = update_subject(rule, program, action, update) {
            return Some(subject);
        }
    }
    None
}

/// The gate, then the guard.
fn conditions_subject<'a>(
    rule: ExprRule,
    program: &Program,
    action: &'a Action,
) -> Option<Subject<'a>>
    ensures { all_meant result ≡ conditions_subject rule program.now action.now }
{
    if let Some(subject) = truth_subject(rule, &View::Gate(program, action), &action.gate) {
        return Some(subject);
    }
    truth_subject(rule, &View::Guard(program, action), &action.guard)
}

/// What is told of an action.
pub(crate) fn action_subject<'a>(
    rule: ExprRule,
    program: &Program,
    action: &'a Action,
) -> Option<Subject<'a>>
    ensures { all_meant result ≡ action_subject rule program.now action.now }
{
    if let Some(subject) = params_subject(rule, program, action.params.as_slice()) {
        return Some(subject);
    }
    if let Some(subject) = params_subject(rule, program, action.outs.as_slice()) {
        return Some(subject);
    }
    if let Some(subject) = choices_subject(rule, program, action, action.choices.as_slice()) {
        return Some(subject);
    }
    if let Some(subject) = conditions_subject(rule, program, action) {
        return Some(subject);
    }
    updates_subject(rule, program, action, action.updates.as_slice())
}

/// The name behind `refines`.
fn refined_subject<'a>(
    rule: ExprRule,
    program: &Program,
    refines: &'a Option<Refines>,
) -> Option<Subject<'a>>
    ensures { all_meant result ≡ refined_subject rule program.now refines.now }
{
    match refines {
        Some(refines) => {
            let strange = action_named(program, &refines.action).is_none();
            name_subject(rule, strange, &refines.action)
        }
        None => None,
    }
}

/// What is told of a procedure up to its statements.
pub(crate) fn proc_subject<'a>(
    rule: ExprRule,
    program: &Program,
    proc: &'a Proc,
) -> Option<Subject<'a>>
    ensures { all_meant result ≡ proc_subject rule program.now proc.now }
{
    if let Some(subject) = params_subject(rule, program, proc.params.as_slice()) {
        return Some(subject);
    }
    if let Some(subject) = params_subject(rule, program, proc.outs.as_slice()) {
        return Some(subject);
    }
    if let Some(subject) = refined_subject(rule, program, &proc.refines) {
        return Some(subject);
    }
    if let Some(subject) = with_subject(rule, program, proc) {
        return Some(subject);
    }
    locals_subject(rule, program, proc.locals.as_slice())
}

/// What is told of a declared thread.
pub(crate) fn thread_subject<'a>(
    rule: ExprRule,
    program: &Program,
    thread: &'a Thread,
) -> Option<Subject<'a>>
    ensures { all_meant result ≡ thread_subject rule program.now thread.now }
{
    let strange = proc_named(program, &thread.callee).is_none();
    if let Some(subject) = name_subject(rule, strange, &thread.callee) {
        return Some(subject);
    }
    thread_arguments(rule, program, thread)
}

/// Whether a name is that of one of these parameters.
fn is_param(params: &[Param], name: &Name) -> bool
    ensures { result ≡ has_name (param_names params.now) name.now }
{
    for param in params {
        if same_name(name, &param.name) {
            return true;
        }
    }
    false
}

/// Whether a name is that of one of these locals.
fn is_local(locals: &[Local], name: &Name) -> bool
    ensures { result ≡ has_name (map (λ declared. declared.name) locals.now) name.now }
{
    for local in locals {
        if same_name(name, &local.name) {
            return true;
        }
    }
    false
}

/// Whether a name is no parameter, output or local.
#[tactic(auto, using(civl_names::proofs::Lists::any_append))]
fn place_unknown(proc: &Proc, name: &Name) -> bool
    ensures { result ≡ place_unknown proc.now name.now }
{
    !(is_param(proc.params.as_slice(), name)
        || is_param(proc.outs.as_slice(), name)
        || is_local(proc.locals.as_slice(), name))
}

/// The target or the callee, which stands in front.
fn front_subject<'a>(
    rule: ExprRule,
    program: &Program,
    proc: &Proc,
    stmt: &'a Stmt,
) -> Option<Subject<'a>>
    ensures { all_meant result ≡ front_subject rule program.now proc.now (out-Stmt stmt.now) }
{
    match stmt {
        Stmt::Assign(target, _) => name_subject(rule, place_unknown(proc, target), target),
        Stmt::Call(callee, _, _) => {
            let strange = callee_signature(program, callee).is_none();
            name_subject(rule, strange, callee)
        }
        Stmt::Intro(target, _) => {
            let strange = !is_global(program.globals.as_slice(), target);
            name_subject(rule, strange, target)
        }
        Stmt::Spawn(callee, _) => {
            let strange = proc_named(program, callee).is_none();
            name_subject(rule, strange, callee)
        }
        Stmt::Assert(_) | Stmt::If(_, _, _) | Stmt::While(_, _) => None,
        Stmt::YieldLoop(_, _, _) | Stmt::RankLoop(_, _, _, _) => None,
        Stmt::Yield(_) | Stmt::Commit => None,
    }
}

/// The first result of a call that is no parameter, output or local.
fn results_unknown<'a>(proc: &Proc, results: &'a [Name]) -> Option<Subject<'a>>
    ensures { all_meant result ≡ first_told (λ name. name_subject UnknownRule (place_unknown proc.now name) name) results.now }
{
    for name in results {
        if place_unknown(proc, name) {
            return Some(Subject::Name(name));
        }
    }
    None
}

/// A result that hasn't the sort of the output in its place.
fn result_sort<'a>(name: &'a Name, sort: Option<Sort>, out: Sort) -> Option<Subject<'a>>
    ensures { all_meant result ≡ result_sort name.now sort out }
{
    let sort = sort?;
    if same_sort(sort, out) {
        return None;
    }
    Some(Subject::Needs(name, sort, out))
}

/// The first such result.
fn results_sort<'a>(
    program: &Program,
    proc: &Proc,
    results: &'a [Name],
    outs: &[Param],
) -> Option<Subject<'a>>
    ensures { all_meant result ≡ results_sort proc.now results.now (param_sorts outs.now) }
{
    for (at, name) in results.iter().enumerate() {
        if at >= outs.len() {
            return None;
        }
        let sort = name_sort(&View::Body(program, proc), name);
        if let Some(subject) = result_sort(name, sort, outs[at].sort) {
            return Some(subject);
        }
    }
    None
}

/// The same of a call of an action or procedure with this signature.
fn results_of<'a>(
    program: &Program,
    proc: &Proc,
    results: &'a [Name],
    signature: Option<Signature<'_>>,
) -> Option<Subject<'a>>
    ensures { all_meant result ≡ results_sort proc.now results.now (given_sorts (signature_of signature.entry)) }
{
    match signature {
        Some(signature) => results_sort(program, proc, results, signature.outs),
        None => results_sort(program, proc, results, &[]),
    }
}

/// What is told of the results of a call.
fn results_subject<'a>(
    rule: ExprRule,
    program: &Program,
    proc: &Proc,
    results: &'a [Name],
    callee: &Name,
) -> Option<Subject<'a>>
    ensures { all_meant result ≡ results_subject rule proc.now results.now (given_sorts (callee_signature program.now callee.now)) }
{
    match rule {
        ExprRule::Unknown => results_unknown(proc, results),
        ExprRule::Sorts => { results_of(program, proc, results, callee_signature(program, callee)) }
        ExprRule::Width => None,
        ExprRule::Index => None,
    }
}

/// The results of a call, which stand last.
fn last_subject<'a>(
    rule: ExprRule,
    program: &Program,
    proc: &Proc,
    stmt: &'a Stmt,
) -> Option<Subject<'a>>
    ensures { all_meant result ≡ last_subject rule program.now proc.now (out-Stmt stmt.now) }
{
    match stmt {
        Stmt::Call(callee, _, results) => {
            results_subject(rule, program, proc, results.as_slice(), callee)
        }
        Stmt::Assign(_, _) | Stmt::Assert(_) | Stmt::If(_, _, _) | Stmt::While(_, _) => None,
        Stmt::YieldLoop(_, _, _) | Stmt::RankLoop(_, _, _, _) => None,
        Stmt::Yield(_) | Stmt::Commit | Stmt::Intro(_, _) | Stmt::Spawn(_, _) => None,
    }
}

/// What is told of a statement, without those in it.
pub(crate) fn stmt_subject<'a>(
    rule: ExprRule,
    program: &Program,
    proc: &Proc,
    stmt: &'a Stmt,
) -> Option<Subject<'a>>
    ensures { all_meant result ≡ stmt_subject rule program.now proc.now stmt.now }
{
    if let Some(subject) = front_subject(rule, program, proc, stmt) {
        return Some(subject);
    }
    if let Some(subject) = stmt_expressions(rule, program, proc, stmt) {
        return Some(subject);
    }
    last_subject(rule, program, proc, stmt)
}
