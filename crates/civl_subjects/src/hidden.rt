// The first global that is used where it doesn't exist (E31).
ghost use Rattle.std.specs.Prelude.{◌≡◌, option_copied, Some, None, if◌then◌else◌};
ghost use Rattle.std.specs.Option.{option_or};
ghost use Rattle.civl_tree.specs.declared.stmt.Stmt.{out-Stmt};
ghost use Rattle.civl_layers.specs.Hidden.{hidden_in_action, hidden_at_step};
ghost use Rattle.civl_layers.specs.Names.{global_named};
ghost use Rattle.civl_layers.specs.Ranges.{exists_around, exists_in, exists_through};
ghost use Rattle.civl_subjects.specs.Layers.{action_hidden, action_use, first_use, form_use, invariant_hidden, stmt_hidden, update_use, with_hidden};
ghost use Rattle.civl_subjects.specs.Parts.{first_told};
ghost use Rattle.civl_subjects.specs.inner.Meant.{hidden_by};

use civl_tree::{Action, Choice, Expr, Global, Invariant, Name, Program, Refines, Stmt, Update};
use civl_types::names::same_name;

/// The layers of which an expression speaks: all those of an action, or a step with the layer below.
#[derive(Clone, Copy)]
pub(crate) enum Span<'a> {
    Through(&'a Program, &'a Action),
    Around(&'a Program, u32),
}

/// The global of this name.
fn global_named<'a>(program: &'a Program, name: &Name) -> Option<&'a Global>
    ensures { option_copied result ≡ global_named program.now name.now }
{
    program
        .globals
        .as_slice()
        .iter()
        .find(|global| same_name(name, &global.name))
}

fn exists_in(layer: u32, first: u32, last: u32) -> bool
    ensures { result ≡ exists_in layer (record { first = first; last = last }) }
{
    first <= layer && layer <= last
}

/// Whether all layers from one to another are among those from the first to the last.
pub(crate) fn exists_through(from: u32, to: u32, first: u32, last: u32) -> bool
    ensures { result ≡ exists_through from to (record { first = first; last = last }) }
{
    to < from || first <= from && to <= last
}

/// Whether the layer of a step or the one below it is among those from the first to the last.
fn exists_around(step: u32, first: u32, last: u32) -> bool
    ensures { result ≡ exists_around step (record { first = first; last = last }) }
{
    exists_in(step.saturating_sub(1), first, last) || exists_in(step, first, last)
}

fn hidden_in_action(program: &Program, action: &Action, name: &Name) -> bool
    ensures { result ≡ hidden_in_action program.now action.now name.now }
{
    match global_named(program, name) {
        Some(global) => !exists_through(action.first, action.last, global.first, global.last),
        None => false,
    }
}

fn hidden_at_step(program: &Program, step: u32, name: &Name) -> bool
    ensures { result ≡ hidden_at_step program.now step name.now }
{
    match global_named(program, name) {
        Some(global) => !exists_around(step, global.first, global.last),
        None => false,
    }
}

/// Whether a name is that of a global which may not be used there.
fn is_hidden(span: &Span, name: &Name) -> bool
    ensures { result ≡ hidden_by span.now name.now }
{
    match span {
        Span::Through(program, action) => hidden_in_action(program, action, name),
        Span::Around(program, step) => hidden_at_step(program, *step, name),
    }
}

/// The first of two names that is there.
fn either<'a>(first: Option<&'a Name>, second: Option<&'a Name>) -> Option<&'a Name>
    ensures { option_copied result ≡ option_or (option_copied first.entry) (option_copied second.entry) }
{
    match first {
        Some(name) => Some(name),
        None => second,
    }
}

/// The name, where it is that of a global which may not be used there.
fn if_hidden<'a>(span: &Span, name: &'a Name) -> Option<&'a Name>
    ensures { option_copied result ≡ (if hidden_by span.now name.now then Some name.now else None) }
{
    if is_hidden(span, name) {
        return Some(name);
    }
    None
}

/// The first such name of an expression.
fn first_use<'a>(span: &Span, expr: &'a Expr) -> Option<&'a Name>
    ensures { option_copied result ≡ first_use (hidden_by span.now) expr.now }
{
    match expr {
        Expr::Name(name) | Expr::Old(name) => if_hidden(span, name),
        Expr::Literal(_, _) | Expr::True | Expr::False | Expr::Done | Expr::OldDone => None,
        Expr::One(_, part) => first_use(span, part),
        Expr::Two(_, first, second) => either(first_use(span, first), first_use(span, second)),
        Expr::Pick(test, first, second) => either(
            first_use(span, test),
            either(first_use(span, first), first_use(span, second)),
        ),
        Expr::Get(row, at) => either(first_use(span, row), first_use(span, at)),
        Expr::Set(row, at, cell) => either(
            first_use(span, row),
            either(first_use(span, at), first_use(span, cell)),
        ),
        Expr::Fill(_, cell) => first_use(span, cell),
        Expr::Slice(word, _, _) => first_use(span, word),
        Expr::Widen(word, _) => first_use(span, word),
        Expr::Join(first, second) => either(first_use(span, first), first_use(span, second)),
    }
}

fn offers_use<'a>(span: &Span, choices: &'a [Choice]) -> Option<&'a Name>
    ensures { option_copied result ≡ first_told (λ choice. first_use (hidden_by span.now) choice.offer) choices.now }
{
    for choice in choices {
        if let Some(name) = first_use(span, &choice.offer) {
            return Some(name);
        }
    }
    None
}

fn update_use<'a>(span: &Span, update: &'a Update) -> Option<&'a Name>
    ensures { option_copied result ≡ update_use (hidden_by span.now) update.now }
{
    either(
        if_hidden(span, &update.target),
        first_use(span, &update.expr),
    )
}

fn updates_use<'a>(span: &Span, updates: &'a [Update]) -> Option<&'a Name>
    ensures { option_copied result ≡ first_told (update_use (hidden_by span.now)) updates.now }
{
    for update in updates {
        if let Some(name) = update_use(span, update) {
            return Some(name);
        }
    }
    None
}

fn values_use<'a>(span: &Span, values: &'a [Expr]) -> Option<&'a Name>
    ensures { option_copied result ≡ first_told (first_use (hidden_by span.now)) values.now }
{
    for value in values {
        if let Some(name) = first_use(span, value) {
            return Some(name);
        }
    }
    None
}

/// The first global of an action that doesn't exist in its whole range.
pub(crate) fn action_hidden<'a>(program: &'a Program, action: &'a Action) -> Option<&'a Name>
    ensures { option_copied result ≡ action_hidden program.now action.now }
{
    let span = Span::Through(program, action);
    let offers = offers_use(&span, action.choices.as_slice());
    let gate = first_use(&span, &action.gate);
    let guard = first_use(&span, &action.guard);
    let updates = updates_use(&span, action.updates.as_slice());
    either(offers, either(gate, either(guard, updates)))
}

/// The first global of an invariant that exists neither in the layer of its step nor in the one below.
pub(crate) fn invariant_hidden<'a>(
    program: &'a Program,
    invariant: &'a Invariant,
) -> Option<&'a Name>
    ensures { option_copied result ≡ invariant_hidden program.now invariant.now }
{
    first_use(&Span::Around(program, invariant.step), &invariant.expr)
}

/// The same of the values after `with`.
pub(crate) fn with_hidden<'a>(
    program: &'a Program,
    refines: &'a Option<Refines>,
) -> Option<&'a Name>
    ensures { option_copied result ≡ with_hidden program.now refines.now }
{
    match refines {
        Some(refines) => values_use(
            &Span::Around(program, refines.layer),
            refines.with.as_slice(),
        ),
        None => None,
    }
}

/// The same of what a procedure says of the store.
fn form_use<'a>(span: &Span, stmt: &'a Stmt) -> Option<&'a Name>
    ensures { option_copied result ≡ form_use (hidden_by span.now) (out-Stmt stmt.now) }
{
    match stmt {
        Stmt::YieldLoop(_, inv, _) => first_use(span, inv),
        Stmt::RankLoop(_, rank, inv, _) => either(first_use(span, rank), first_use(span, inv)),
        Stmt::Yield(inv) => first_use(span, inv),
        Stmt::Intro(_, value) => first_use(span, value),
        Stmt::Assign(_, _) | Stmt::Assert(_) | Stmt::If(_, _, _) | Stmt::While(_, _) => None,
        Stmt::Call(_, _, _) | Stmt::Commit | Stmt::Spawn(_, _) => None,
    }
}

/// The same of a statement.
pub(crate) fn stmt_hidden<'a>(
    program: &'a Program,
    refines: &Option<Refines>,
    stmt: &'a Stmt,
) -> Option<&'a Name>
    ensures { option_copied result ≡ stmt_hidden program.now refines.now stmt.now }
{
    match refines {
        Some(refines) => form_use(&Span::Around(program, refines.layer), stmt),
        None => None,
    }
}
