// Globals that are used where they don't exist (E31).
ghost use Rattle.std.specs.Prelude.{◌≡◌, ◌||◌};
ghost use Rattle.std.specs.List.{list_any};
ghost use Rattle.civl_layers.specs.Names.{uses};
ghost use Rattle.civl_tree.specs.declared.stmt.Stmt.{out-Stmt};
ghost use Rattle.civl_layers.specs.Hidden.{action_hidden, invariant_hidden, with_hidden, form_hidden, stmt_hidden};
ghost use Rattle.civl_layers.specs.inner.Spans.{hidden_by};

use crate::span::{Span, is_hidden, uses_hidden};
use civl_tree::{Action, Choice, Expr, Invariant, Program, Refines, Stmt, Update};

fn offers_hidden(span: &Span, choices: &[Choice]) -> bool
    ensures { result ≡ list_any (λ choice. uses (hidden_by span.now) choice.offer) choices.now }
{
    for choice in choices {
        if uses_hidden(span, &choice.offer) {
            return true;
        }
    }
    false
}

fn updates_hidden(span: &Span, updates: &[Update]) -> bool
    ensures { result ≡ list_any (λ update. hidden_by span.now update.target || uses (hidden_by span.now) update.expr) updates.now }
{
    for update in updates {
        if is_hidden(span, &update.target) || uses_hidden(span, &update.expr) {
            return true;
        }
    }
    false
}

fn values_hidden(span: &Span, values: &[Expr]) -> bool
    ensures { result ≡ list_any (uses (hidden_by span.now)) values.now }
{
    for value in values {
        if uses_hidden(span, value) {
            return true;
        }
    }
    false
}

/// Whether an action breaks E31.
pub(crate) fn action_hidden(program: &Program, action: &Action) -> bool
    ensures { result ≡ action_hidden program.now action.now }
{
    let span = Span::Through(program, action);
    offers_hidden(&span, action.choices.as_slice())
        || uses_hidden(&span, &action.gate)
        || uses_hidden(&span, &action.guard)
        || updates_hidden(&span, action.updates.as_slice())
}

/// Whether an invariant breaks E31.
pub(crate) fn invariant_hidden(program: &Program, invariant: &Invariant) -> bool
    ensures { result ≡ invariant_hidden program.now invariant.now }
{
    uses_hidden(&Span::Around(program, invariant.step), &invariant.expr)
}

/// Whether a value after `with` breaks E31.
pub(crate) fn with_hidden(program: &Program, refines: &Option<Refines>) -> bool
    ensures { result ≡ with_hidden program.now refines.now }
{
    match refines {
        Some(refines) => {
            let span = Span::Around(program, refines.layer);
            values_hidden(&span, refines.with.as_slice())
        }
        None => false,
    }
}

fn form_hidden(program: &Program, step: u32, stmt: &Stmt) -> bool
    ensures { result ≡ form_hidden program.now step (out-Stmt stmt.now) }
{
    let span = Span::Around(program, step);
    match stmt {
        Stmt::YieldLoop(_, inv, _) => uses_hidden(&span, inv),
        Stmt::RankLoop(_, rank, inv, _) => uses_hidden(&span, rank) || uses_hidden(&span, inv),
        Stmt::Yield(inv) => uses_hidden(&span, inv),
        Stmt::Intro(_, value) => uses_hidden(&span, value),
        Stmt::Assign(_, _) => false,
        Stmt::Assert(_) => false,
        Stmt::If(_, _, _) => false,
        Stmt::While(_, _) => false,
        Stmt::Call(_, _, _) => false,
        Stmt::Commit => false,
        Stmt::Spawn(_, _) => false,
    }
}

/// Whether a statement of a procedure breaks E31.
pub(crate) fn stmt_hidden(program: &Program, refines: &Option<Refines>, stmt: &Stmt) -> bool
    ensures { result ≡ stmt_hidden program.now refines.now stmt.now }
{
    match refines {
        Some(refines) => form_hidden(program, refines.layer, stmt),
        None => false,
    }
}
