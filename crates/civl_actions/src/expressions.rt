// The terms of expressions.
ghost use Rattle.std.specs.Prelude.{◌≡◌, ◌<◌, length, slice_get, Some, IfOk};
ghost use Rattle.civl_terms.specs.Building.{Grows};
ghost use Rattle.civl_actions.specs.Scopes.{HasTyping, Means};

use crate::scope::Scope;
use civl_bits::Value;
use civl_firing::names::place;
use civl_firing::values::literal;
use civl_terms::{Id, Memory, Terms};
use civl_tree::Expr;

/// The term at this place.
fn term_at(ids: &[Id], at: usize) -> Id
    requires { at < length ids.now }
    ensures { slice_get ids.now at ≡ Some result }
{
    ids[at]
}

/// The term of an expression, where the names stand for these terms.
///
/// The expression has a sort, where the names have those of their terms. Its term has its value and its sort, and the graph's
/// weight rises by at most the expression's.
///
/// # Errors
///
/// For want of memory; the nodes before stay.
#[tactic(auto, using(civl_terms::proofs::Growing::growth))]
pub fn term(expr: &Expr, scope: &Scope<'_>, terms: &mut Terms) -> Result<Id, Memory>
    requires { HasTyping terms.old scope.now expr.now }
    ensures built { IfOk result (λ id. Means terms.old terms.new scope.now expr.now id) }
    ensures grows { Grows terms.old terms.new }
{
    let _count = terms.len();
    match expr {
        Expr::Name(name) => Ok(term_at(scope.values, place(&scope.names, name))),
        Expr::Literal(number, width) => {
            let id = terms.constant(literal(*number, *width))?;
            Ok(id)
        }
        Expr::True => {
            let id = terms.constant(Value::Bool(true))?;
            Ok(id)
        }
        Expr::False => {
            let id = terms.constant(Value::Bool(false))?;
            Ok(id)
        }
        Expr::Done => Ok(scope.done),
        Expr::Old(name) => Ok(term_at(scope.old, place(&scope.names, name))),
        Expr::OldDone => Ok(scope.old_done),
        Expr::One(op, a) => {
            let a = term(a.get(), scope, terms)?;
            let id = terms.one(*op, a)?;
            Ok(id)
        }
        Expr::Two(op, a, b) => {
            let a = term(a.get(), scope, terms)?;
            let b = term(b.get(), scope, terms)?;
            let id = terms.two(*op, a, b)?;
            Ok(id)
        }
        Expr::Pick(test, a, b) => {
            let test = term(test.get(), scope, terms)?;
            let a = term(a.get(), scope, terms)?;
            let b = term(b.get(), scope, terms)?;
            let id = terms.pick(test, a, b)?;
            Ok(id)
        }
        Expr::Get(row, at) => {
            let row = term(row.get(), scope, terms)?;
            let at = term(at.get(), scope, terms)?;
            let id = terms.get(row, at)?;
            Ok(id)
        }
        Expr::Set(row, at, cell) => {
            let row = term(row.get(), scope, terms)?;
            let at = term(at.get(), scope, terms)?;
            let cell = term(cell.get(), scope, terms)?;
            let id = terms.set(row, at, cell)?;
            Ok(id)
        }
        Expr::Fill(index, cell) => {
            let cell = term(cell.get(), scope, terms)?;
            let id = terms.fill(*index, cell)?;
            Ok(id)
        }
        Expr::Slice(a, high, low) => {
            let a = term(a.get(), scope, terms)?;
            let id = terms.slice(a, *high, *low)?;
            Ok(id)
        }
        Expr::Widen(a, width) => {
            let a = term(a.get(), scope, terms)?;
            let id = terms.widen(a, *width)?;
            Ok(id)
        }
        Expr::Join(a, b) => {
            let a = term(a.get(), scope, terms)?;
            let b = term(b.get(), scope, terms)?;
            let id = terms.join(a, b)?;
            Ok(id)
        }
    }
}
