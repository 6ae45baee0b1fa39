// Expressions at their places.
ghost use Rattle.std.specs.Prelude.{◌≡◌, slice_get, Some, option_copied};
ghost use Rattle.civl_tree.specs.rules.Names.{action_named};
ghost use Rattle.civl_tree.specs.rules.Sorts.{same_sort, sort_of};
ghost use Rattle.civl_tree.specs.rules.Uses.{argument_uses, chosen_sorts, init_uses, invariant_uses, need_of, serves, stmt_uses, taken_sorts, target_use, thread_uses, truth_use, with_uses};
ghost use Rattle.civl_types.specs.Views.{scope_of, signature_of};
ghost use Rattle.civl_subjects.specs.Places.{needs_subject, part_subject, name_or_part, place_subject, use_subject, uses_subject};
ghost use Rattle.civl_tree.specs.declared.expr.Expr.{out-Expr};
ghost use Rattle.civl_subjects.specs.inner.Meant.{all_meant, meant, need_of as need_meant, sorts_at};

use crate::expr_rule::ExprRule;
use crate::inside::first_part;
use crate::subject::{Needed, Subject};
use civl_tree::{Action, Choice, Expr, Invariant, Param, Proc, Program, Sort, Stmt, Thread};
use civl_types::names::{Signature, action_named, callee_signature, proc_signature};
use civl_types::sorts::sort_of;
use civl_types::view::{View, name_sort};

/// Whether two sorts are the same.
pub(crate) fn same_sort(first: Sort, second: Sort) -> bool
    ensures { result ≡ same_sort first second }
{
    match first {
        Sort::Bool => match second {
            Sort::Bool => true,
            Sort::Word(_) | Sort::Row(_, _) => false,
        },
        Sort::Word(width) => match second {
            Sort::Word(other) => width == other,
            Sort::Bool | Sort::Row(_, _) => false,
        },
        Sort::Row(index, width) => match second {
            Sort::Row(other, cell) => index == other && width == cell,
            Sort::Bool | Sort::Word(_) => false,
        },
    }
}

/// The places for arguments: parameters, or the choices of an action.
#[derive(Clone, Copy)]
pub(crate) enum Slots<'a> {
    Params(&'a [Param]),
    Choices(&'a [Choice]),
}

/// Whether an expression of a sort serves at a place.
fn serves(sort: Sort, needed: Needed) -> bool
    ensures { result ≡ serves (Some sort) (need_meant needed) }
{
    match needed {
        Needed::Any => true,
        Needed::Word => match sort {
            Sort::Word(_) => true,
            Sort::Bool | Sort::Row(_, _) => false,
        },
        Needed::Only(other) => same_sort(sort, other),
    }
}

/// What the value for a target of this sort needs.
fn needed_for(target: Option<Sort>) -> Needed
    ensures { need_meant result ≡ need_of target }
{
    match target {
        None => Needed::Any,
        Some(sort) => Needed::Only(sort),
    }
}

/// An expression of a sort that doesn't serve at its place.
fn needs_subject<'a>(view: &View, expr: &'a Expr, needed: Needed) -> Option<Subject<'a>>
    ensures { all_meant result
        ≡ needs_subject (record { scope = scope_of view.now; expression = expr.now; need = need_meant needed }) (sort_of
        (scope_of view.now) expr.now) }
{
    let sort = sort_of(view, expr)?;
    if serves(sort, needed) {
        return None;
    }
    Some(Subject::Missorted(expr, sort, needed))
}

/// What the place of an expression needs, under the rule on sorts.
fn place_subject<'a>(
    rule: ExprRule,
    view: &View,
    expr: &'a Expr,
    needed: Needed,
) -> Option<Subject<'a>>
    ensures { all_meant result
        ≡ place_subject rule (record { scope = scope_of view.now; expression = expr.now; need = need_meant needed }) }
{
    match rule {
        ExprRule::Sorts => needs_subject(view, expr, needed),
        ExprRule::Unknown => None,
        ExprRule::Width => None,
        ExprRule::Index => None,
    }
}

/// What is told of a name, plain or in `old`, or of any other part.
fn name_or_part(part: &Expr) -> Subject<'_>
    ensures { meant result ≡ name_or_part part.now (out-Expr part.now) }
{
    match part {
        Expr::Name(name) => Subject::Name(name),
        Expr::Old(name) => Subject::Name(name),
        Expr::Literal(_, _) | Expr::True | Expr::False | Expr::Done => Subject::Expr(part),
        Expr::OldDone | Expr::One(_, _) | Expr::Two(_, _, _) => Subject::Expr(part),
        Expr::Pick(_, _, _) | Expr::Get(_, _) | Expr::Set(_, _, _) => Subject::Expr(part),
        Expr::Fill(_, _) | Expr::Slice(_, _, _) | Expr::Widen(_, _) => Subject::Expr(part),
        Expr::Join(_, _) => Subject::Expr(part),
    }
}

/// What is told of a part that breaks the rule.
fn part_subject(rule: ExprRule, part: &Expr) -> Subject<'_>
    ensures { meant result ≡ part_subject rule part.now }
{
    match rule {
        ExprRule::Unknown => name_or_part(part),
        ExprRule::Width => Subject::Expr(part),
        ExprRule::Sorts => Subject::Unsorted(part),
        ExprRule::Index => Subject::Expr(part),
    }
}

/// The first part that breaks the rule; or the whole expression, where its place needs another sort.
pub(crate) fn use_subject<'a>(
    rule: ExprRule,
    view: &View,
    expr: &'a Expr,
    needed: Needed,
) -> Option<Subject<'a>>
    ensures { all_meant result ≡ use_subject rule (record { scope = scope_of view.now; expression = expr.now; need = need_meant needed }) }
{
    match first_part(rule, view, expr) {
        Some(part) => Some(part_subject(rule, part)),
        None => place_subject(rule, view, expr, needed),
    }
}

/// The same of a condition, an invariant, a gate or a guard.
pub(crate) fn truth_subject<'a>(rule: ExprRule, view: &View, expr: &'a Expr) -> Option<Subject<'a>>
    ensures { all_meant result ≡ use_subject rule (truth_use (scope_of view.now) expr.now) }
{
    use_subject(rule, view, expr, Needed::Only(Sort::Bool))
}

/// The same of a value for a target of this sort, where there is this target.
pub(crate) fn target_subject<'a>(
    rule: ExprRule,
    view: &View,
    expr: &'a Expr,
    target: Option<Sort>,
) -> Option<Subject<'a>>
    ensures { all_meant result ≡ use_subject rule (target_use (scope_of view.now) expr.now target) }
{
    use_subject(rule, view, expr, needed_for(target))
}

/// The sort of the place at this number, where there is one.
#[tactic(auto, using(civl_types::proofs::Slots::slots))]
fn slot(slots: &Slots, at: usize) -> Option<Sort>
    ensures { result ≡ slice_get (sorts_at slots.now) at }
{
    match slots {
        Slots::Params(params) => match params.get(at) {
            Some(param) => Some(param.sort),
            None => None,
        },
        Slots::Choices(choices) => match choices.get(at) {
            Some(choice) => Some(choice.sort),
            None => None,
        },
    }
}

/// The first of these arguments about which something is told.
pub(crate) fn arguments_subject<'a>(
    rule: ExprRule,
    view: &View,
    args: &'a [Expr],
    slots: &Slots,
) -> Option<Subject<'a>>
    ensures { all_meant result ≡ uses_subject rule (argument_uses (scope_of view.now) args.now (sorts_at slots.now)) }
{
    for (at, arg) in args.iter().enumerate() {
        if let Some(subject) = target_subject(rule, view, arg, slot(slots, at)) {
            return Some(subject);
        }
    }
    None
}

/// What is told of `init`.
pub(crate) fn init_subject(rule: ExprRule, program: &Program) -> Option<Subject<'_>>
    ensures { all_meant result ≡ uses_subject rule (init_uses program.now) }
{
    truth_subject(rule, &View::Globals(program), &program.init)
}

/// What is told of an invariant.
pub(crate) fn invariant_subject<'a>(
    rule: ExprRule,
    program: &Program,
    invariant: &'a Invariant,
) -> Option<Subject<'a>>
    ensures { all_meant result ≡ uses_subject rule (invariant_uses program.now invariant.now) }
{
    truth_subject(rule, &View::Globals(program), &invariant.expr)
}

/// The places for the arguments of a call; none where there is no callee.
fn taken<'a>(signature: Option<Signature<'a>>) -> Slots<'a>
    ensures { sorts_at result ≡ taken_sorts (signature_of signature.entry) }
{
    match signature {
        Some(signature) => Slots::Params(signature.params),
        None => Slots::Params(&[]),
    }
}

/// The places for the choices of an action; none where there is no action.
fn chosen<'a>(action: Option<&'a Action>) -> Slots<'a>
    ensures { sorts_at result ≡ chosen_sorts (option_copied action.entry) }
{
    match action {
        Some(action) => Slots::Choices(action.choices.as_slice()),
        None => Slots::Choices(&[]),
    }
}

/// What is told of the values after `with`.
pub(crate) fn with_subject<'a>(
    rule: ExprRule,
    program: &Program,
    proc: &'a Proc,
) -> Option<Subject<'a>>
    ensures { all_meant result ≡ uses_subject rule (with_uses program.now proc.now proc.now.refines) }
{
    match &proc.refines {
        Some(refines) => {
            let slots = chosen(action_named(program, &refines.action));
            arguments_subject(
                rule,
                &View::Note(program, proc),
                refines.with.as_slice(),
                &slots,
            )
        }
        None => None,
    }
}

/// What is told of the expressions of a statement, without those of the statements in it.
pub(crate) fn stmt_expressions<'a>(
    rule: ExprRule,
    program: &Program,
    proc: &Proc,
    stmt: &'a Stmt,
) -> Option<Subject<'a>>
    ensures { all_meant result ≡ uses_subject rule (stmt_uses program.now proc.now stmt.now) }
{
    let body = View::Body(program, proc);
    let note = View::Note(program, proc);
    match stmt {
        Stmt::Assign(target, value) => {
            target_subject(rule, &body, value, name_sort(&body, target))
        }
        Stmt::Assert(fact) => truth_subject(rule, &body, fact),
        Stmt::If(test, _, _) => truth_subject(rule, &body, test),
        Stmt::While(test, _) => truth_subject(rule, &body, test),
        Stmt::YieldLoop(test, inv, _) => {
            if let Some(subject) = truth_subject(rule, &body, test) {
                return Some(subject);
            }
            truth_subject(rule, &note, inv)
        }
        Stmt::RankLoop(test, rank, inv, _) => {
            if let Some(subject) = truth_subject(rule, &body, test) {
                return Some(subject);
            }
            if let Some(subject) = use_subject(rule, &note, rank, Needed::Word) {
                return Some(subject);
            }
            truth_subject(rule, &note, inv)
        }
        Stmt::Call(callee, args, _) => {
            let slots = taken(callee_signature(program, callee));
            arguments_subject(rule, &body, args.as_slice(), &slots)
        }
        Stmt::Yield(inv) => truth_subject(rule, &note, inv),
        Stmt::Commit => None,
        Stmt::Intro(target, value) => target_subject(
            rule,
            &note,
            value,
            name_sort(&View::Globals(program), target),
        ),
        Stmt::Spawn(callee, args) => {
            let slots = taken(proc_signature(program, callee));
            arguments_subject(rule, &body, args.as_slice(), &slots)
        }
    }
}

/// What is told of the arguments of a declared thread.
pub(crate) fn thread_arguments<'a>(
    rule: ExprRule,
    program: &Program,
    thread: &'a Thread,
) -> Option<Subject<'a>>
    ensures { all_meant result ≡ uses_subject rule (thread_uses program.now thread.now) }
{
    let slots = taken(proc_signature(program, &thread.callee));
    arguments_subject(
        rule,
        &View::Globals(program),
        thread.args.as_slice(),
        &slots,
    )
}
