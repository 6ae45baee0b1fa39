// The expressions of a program at their places.
ghost use Rattle.std.specs.Prelude.{◌≡◌, [], ◌||◌, map, slice_get, Some, option_copied};
ghost use Rattle.civl_tree.specs.rules.Scopes.{guard_scope};
ghost use Rattle.civl_tree.specs.rules.Uses.{serves, need_of, truth_use, target_use, argument_uses, action_uses, with_uses, stmt_uses, thread_uses, update_sort, init_uses, invariant_uses};
ghost use Rattle.civl_types.specs.inner.Rules.{need_for, sorts_at, use_breaks, any_use};
ghost use Rattle.civl_types.specs.Views.{scope_of, signature_of};
ghost use Rattle.civl_tree.specs.rules.Uses.{taken_sorts, chosen_sorts};
ghost use Rattle.civl_tree.specs.rules.Names.{action_named};

use crate::exprs::{indices_fit, widths_fit};
use crate::names::{Signature, action_named, callee_signature, proc_signature};
use crate::rule::TypingRule;
use crate::sorts::{same_sort, sort_of};
use crate::view::{View, global_sort, outer_sort, place_sort};
use civl_tree::{
    Action, Choice, Expr, Invariant, Param, Proc, Program, Sort, Stmt, Thread, Update,
};

/// What the place of an expression needs: any sort, a word, or this sort.
#[derive(Clone, Copy)]
pub(crate) enum Wanted {
    Any,
    Word,
    Only(Sort),
}

/// The places for arguments: parameters, or the choices of an action.
#[derive(Clone, Copy)]
pub(crate) enum Slots<'a> {
    Params(&'a [Param]),
    Choices(&'a [Choice]),
}

fn serves(sort: Option<Sort>, wanted: Wanted) -> bool
    ensures { result ≡ serves sort (need_for wanted) }
{
    match sort {
        None => false,
        Some(sort) => match wanted {
            Wanted::Any => true,
            Wanted::Word => match sort {
                Sort::Word(_) => true,
                Sort::Bool | Sort::Row(_, _) => false,
            },
            Wanted::Only(other) => same_sort(sort, other),
        },
    }
}

/// What the value for a target of this sort needs.
pub(crate) fn wanted_for(target: Option<Sort>) -> Wanted
    ensures { need_for result ≡ need_of target }
{
    match target {
        None => Wanted::Any,
        Some(sort) => Wanted::Only(sort),
    }
}

/// Whether an expression at a place breaks a rule of expressions.
pub(crate) fn use_breaks(rule: TypingRule, view: &View, expr: &Expr, wanted: Wanted) -> bool
    ensures { result ≡ use_breaks rule (record { scope = scope_of view.now; expression = expr.now; need = need_for wanted }) }
{
    match rule {
        TypingRule::Width => !widths_fit(view, expr),
        TypingRule::Sorts => !serves(sort_of(view, expr), wanted),
        TypingRule::Index => !indices_fit(expr),
        TypingRule::Count | TypingRule::Arity | TypingRule::StoreSize => false,
    }
}

/// The same of a condition, an invariant, a gate or a guard.
pub(crate) fn truth_breaks(rule: TypingRule, view: &View, expr: &Expr) -> bool
    ensures { result ≡ use_breaks rule (truth_use (scope_of view.now) expr.now) }
{
    use_breaks(rule, view, expr, Wanted::Only(Sort::Bool))
}

/// The same of a value for a target of this sort, where there is this target.
pub(crate) fn target_breaks(
    rule: TypingRule,
    view: &View,
    expr: &Expr,
    target: Option<Sort>,
) -> bool
    ensures { result ≡ use_breaks rule (target_use (scope_of view.now) expr.now target) }
{
    use_breaks(rule, view, expr, wanted_for(target))
}

/// The sort of the place at this number, where there is one.
#[tactic(auto, using(crate::proofs::Slots::slots))]
fn slot(slots: &Slots, at: usize) -> Option<Sort>
    ensures { result ≡ slice_get (sorts_at slots.now) at }
{
    match slots {
        Slots::Params(params) => match params.get(at) {
            Some(param) => Some(param.sort),
            None => None,
        },
        Slots::Choices(choices) => match choices.get(at) {
            Some(choice) => Some(choice.sort),
            None => None,
        },
    }
}

/// Whether one of these arguments breaks a rule of expressions.
pub(crate) fn arguments_break(rule: TypingRule, view: &View, args: &[Expr], slots: &Slots) -> bool
    ensures { result ≡ any_use rule (argument_uses (scope_of view.now) args.now (sorts_at slots.now)) }
{
    for (at, arg) in args.iter().enumerate() {
        if target_breaks(rule, view, arg, slot(slots, at)) {
            return true;
        }
    }
    false
}

fn offers_break(rule: TypingRule, view: &View, choices: &[Choice]) -> bool
    ensures { result ≡ any_use rule (map (λ choice. target_use (scope_of view.now) choice.offer (Some choice.sort)) choices.now) }
{
    for choice in choices {
        if target_breaks(rule, view, &choice.offer, Some(choice.sort)) {
            return true;
        }
    }
    false
}

fn updates_break(rule: TypingRule, program: &Program, action: &Action, updates: &[Update]) -> bool
    ensures { result ≡ any_use rule (map (λ update. target_use (guard_scope program.now action.now) update.expr (update_sort program.now action.now update.target)) updates.now) }
{
    for update in updates {
        let sort = outer_sort(
            program.globals.as_slice(),
            action.outs.as_slice(),
            &update.target,
        );
        if target_breaks(rule, &View::Guard(program, action), &update.expr, sort) {
            return true;
        }
    }
    false
}

/// Whether an expression of an action breaks a rule of expressions.
#[tactic(auto, using(civl_names::proofs::Lists::any_append))]
pub(crate) fn action_uses_break(rule: TypingRule, program: &Program, action: &Action) -> bool
    ensures { result ≡ any_use rule (action_uses program.now action.now) }
{
    let gate = View::Gate(program, action);
    let guard = View::Guard(program, action);
    offers_break(rule, &gate, action.choices.as_slice())
        || truth_breaks(rule, &gate, &action.gate)
        || truth_breaks(rule, &guard, &action.guard)
        || updates_break(rule, program, action, action.updates.as_slice())
}

/// Whether `init` breaks a rule of expressions.
pub(crate) fn init_uses_break(rule: TypingRule, program: &Program) -> bool
    ensures { result ≡ any_use rule (init_uses program.now) }
{
    truth_breaks(rule, &View::Globals(program), &program.init)
}

/// Whether an invariant breaks a rule of expressions.
pub(crate) fn invariant_uses_break(
    rule: TypingRule,
    program: &Program,
    invariant: &Invariant,
) -> bool
    ensures { result ≡ any_use rule (invariant_uses program.now invariant.now) }
{
    truth_breaks(rule, &View::Globals(program), &invariant.expr)
}

/// The places for the arguments of a call; none where there is no callee.
fn taken<'a>(signature: Option<Signature<'a>>) -> Slots<'a>
    ensures { sorts_at result ≡ taken_sorts (signature_of signature.entry) }
{
    match signature {
        Some(signature) => Slots::Params(signature.params),
        None => Slots::Params(&[]),
    }
}

/// The places for the choices of an action; none where there is no action.
fn chosen<'a>(action: Option<&'a Action>) -> Slots<'a>
    ensures { sorts_at result ≡ chosen_sorts (option_copied action.entry) }
{
    match action {
        Some(action) => Slots::Choices(action.choices.as_slice()),
        None => Slots::Choices(&[]),
    }
}

/// Whether a value after `with` breaks a rule of expressions.
pub(crate) fn with_uses_break(rule: TypingRule, program: &Program, proc: &Proc) -> bool
    ensures { result ≡ any_use rule (with_uses program.now proc.now proc.now.refines) }
{
    match &proc.refines {
        Some(refines) => {
            let slots = chosen(action_named(program, &refines.action));
            arguments_break(
                rule,
                &View::Note(program, proc),
                refines.with.as_slice(),
                &slots,
            )
        }
        None => false,
    }
}

/// Whether an expression of a statement itself breaks a rule of expressions.
pub(crate) fn stmt_uses_break(rule: TypingRule, program: &Program, proc: &Proc, stmt: &Stmt) -> bool
    ensures { result ≡ any_use rule (stmt_uses program.now proc.now stmt.now) }
{
    let body = View::Body(program, proc);
    let note = View::Note(program, proc);
    match stmt {
        Stmt::Assign(target, value) => target_breaks(rule, &body, value, place_sort(proc, target)),
        Stmt::Assert(fact) => truth_breaks(rule, &body, fact),
        Stmt::If(test, _, _) => truth_breaks(rule, &body, test),
        Stmt::While(test, _) => truth_breaks(rule, &body, test),
        Stmt::YieldLoop(test, inv, _) => truth_breaks(rule, &body, test)
            || truth_breaks(rule, &note, inv),
        Stmt::RankLoop(test, rank, inv, _) => {
            truth_breaks(rule, &body, test)
                || use_breaks(rule, &note, rank, Wanted::Word)
                || truth_breaks(rule, &note, inv)
        }
        Stmt::Call(callee, args, _) => {
            let slots = taken(callee_signature(program, callee));
            arguments_break(rule, &body, args.as_slice(), &slots)
        }
        Stmt::Yield(inv) => truth_breaks(rule, &note, inv),
        Stmt::Commit => false,
        Stmt::Intro(target, value) => target_breaks(
            rule,
            &note,
            value,
            global_sort(program.globals.as_slice(), target),
        ),
        Stmt::Spawn(callee, args) => {
            let slots = taken(proc_signature(program, callee));
            arguments_break(rule, &body, args.as_slice(), &slots)
        }
    }
}

/// Whether an argument of a declared thread breaks a rule of expressions.
pub(crate) fn thread_uses_break(rule: TypingRule, program: &Program, thread: &Thread) -> bool
    ensures { result ≡ any_use rule (thread_uses program.now thread.now) }
{
    let slots = taken(proc_signature(program, &thread.callee));
    arguments_break(
        rule,
        &View::Globals(program),
        thread.args.as_slice(),
        &slots,
    )
}
