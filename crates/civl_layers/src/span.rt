// The globals that an expression may use.
ghost use Rattle.std.specs.Prelude.{◌≡◌};
ghost use Rattle.civl_layers.specs.Names.{uses};
ghost use Rattle.civl_layers.specs.Hidden.{hidden_in_action, hidden_at_step};
ghost use Rattle.civl_layers.specs.inner.Spans.{hidden_by};

use crate::names::global_named;
use crate::ranges::{exists_around, exists_through};
use civl_tree::{Action, Expr, Name, Program};

/// The layers of which an expression speaks: all those of an action, or a step with the layer below.
#[derive(Clone, Copy)]
pub(crate) enum Span<'a> {
    Through(&'a Program, &'a Action),
    Around(&'a Program, u32),
}

fn hidden_through(program: &Program, action: &Action, name: &Name) -> bool
    ensures { result ≡ hidden_in_action program.now action.now name.now }
{
    match global_named(program, name) {
        Some(global) => !exists_through(action.first, action.last, global.first, global.last),
        None => false,
    }
}

fn hidden_around(program: &Program, step: u32, name: &Name) -> bool
    ensures { result ≡ hidden_at_step program.now step name.now }
{
    match global_named(program, name) {
        Some(global) => !exists_around(step, global.first, global.last),
        None => false,
    }
}

/// Whether a name is that of a global which may not be used there.
pub(crate) fn is_hidden(span: &Span, name: &Name) -> bool
    ensures { result ≡ hidden_by span.now name.now }
{
    match span {
        Span::Through(program, action) => hidden_through(program, action, name),
        Span::Around(program, step) => hidden_around(program, *step, name),
    }
}

/// Whether an expression uses a global that may not be used there.
pub(crate) fn uses_hidden(span: &Span, expr: &Expr) -> bool
    ensures { result ≡ uses (hidden_by span.now) expr.now }
{
    match expr {
        Expr::Name(name) | Expr::Old(name) => is_hidden(span, name),
        Expr::Literal(_, _) | Expr::True | Expr::False | Expr::Done | Expr::OldDone => false,
        Expr::One(_, part) => uses_hidden(span, part),
        Expr::Two(_, first, second) => uses_hidden(span, first) || uses_hidden(span, second),
        Expr::Pick(test, first, second) => uses_hidden(span, test)
            || uses_hidden(span, first)
            || uses_hidden(span, second),
        Expr::Get(row, at) => uses_hidden(span, row) || uses_hidden(span, at),
        Expr::Set(row, at, cell) => uses_hidden(span, row)
            || uses_hidden(span, at)
            || uses_hidden(span, cell),
        Expr::Fill(_, cell) => uses_hidden(span, cell),
        Expr::Slice(word, _, _) => uses_hidden(span, word),
        Expr::Widen(word, _) => uses_hidden(span, word),
        Expr::Join(first, second) => uses_hidden(span, first) || uses_hidden(span, second),
    }
}
