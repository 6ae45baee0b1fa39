//! The values of expressions, where the names stand for what a scope or a setting says.
ghost use Rattle.std.specs.Prelude.{◌≡◌, IfOk};
ghost use Rattle.civl_firing.specs.Eval.{value_of, values_of};
ghost use Rattle.civl_firing.specs.values.Values.{is_true};

use crate::scope::Scope;
use crate::setting::Bindings;
use crate::values::{fill, get, is_true, join, literal, one, pick, set, slice, two, widen};
use civl_bits::Value;
use civl_tree::{Expr, List, Memory};
use std::alloc::Global;

/// The value of an expression, where the names stand for these values.
pub fn value<B: Bindings>(bindings: &B, expr: &Expr) -> Value
    ensures { result ≡ value_of (B.scope bindings.now) expr.now }
{
    match expr {
        Expr::Name(name) => bindings.value(name),
        Expr::Literal(number, width) => literal(*number, *width),
        Expr::True => Value::Bool(true),
        Expr::False => Value::Bool(false),
        Expr::Done => Value::Bool(bindings.is_done()),
        Expr::Old(name) => bindings.old_value(name),
        Expr::OldDone => Value::Bool(bindings.was_done()),
        Expr::One(op, a) => one(*op, value(bindings, a.get())),
        Expr::Two(op, a, b) => {
            let a = value(bindings, a.get());
            let b = value(bindings, b.get());
            two(*op, a, b)
        }
        Expr::Pick(test, a, b) => {
            let test = value(bindings, test.get());
            let a = value(bindings, a.get());
            let b = value(bindings, b.get());
            pick(test, a, b)
        }
        Expr::Get(row, at) => {
            let row = value(bindings, row.get());
            let at = value(bindings, at.get());
            get(row, at)
        }
        Expr::Set(row, at, cell) => {
            let row = value(bindings, row.get());
            let at = value(bindings, at.get());
            let cell = value(bindings, cell.get());
            set(row, at, cell)
        }
        Expr::Fill(index, cell) => fill(*index, value(bindings, cell.get())),
        Expr::Slice(a, high, low) => slice(value(bindings, a.get()), *high, *low),
        Expr::Widen(a, width) => widen(value(bindings, a.get()), *width),
        Expr::Join(a, b) => {
            let a = value(bindings, a.get());
            let b = value(bindings, b.get());
            join(a, b)
        }
    }
}

/// Whether an expression is true.
pub fn holds<B: Bindings>(bindings: &B, expr: &Expr) -> bool
    ensures { result ≡ is_true (value_of (B.scope bindings.now) expr.now) }
{
    is_true(value(bindings, expr))
}

/// The values of some expressions.
///
/// # Errors
///
/// For want of memory.
pub fn values<B: Bindings>(
    alloc: Global,
    bindings: &B,
    exprs: &[Expr],
) -> Result<List<Value>, Memory>
    ensures { IfOk result (λ vs. vs ≡ values_of (B.scope bindings.now) exprs.now) }
{
    let mut values = Vec::new(alloc);
    for expr in exprs {
        values.push(value(bindings, expr))?;
    }
    Ok(List::from_vec(values))
}

/// The value of an expression in a scope. It takes no memory.
///
/// It has one for every expression: a name that isn't in the scope, and an operation whose operands don't have the
/// sorts that it needs, have the value false. `old(n)` has the entry of `old` at the place of n.
pub fn evaluate(expr: &Expr, scope: &Scope) -> Value
    ensures { result ≡ value_of scope.now expr.now }
{
    value(scope, expr)
}
