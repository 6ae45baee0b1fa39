// The innermost parts of a formula that aren't true.
ghost use Rattle.std.specs.Prelude.{◌≡◌, ◌+◌, ◌<◌, ◌≤◌, ◌^◌, if◌then◌else◌, [], ◌∷◌, ◌++◌, take, IfOk, OnOk, length, map};
ghost use Rattle.civl_tree.specs.Spelling.{spell_expr};
ghost use Rattle.civl_firing.specs.Eval.{value_of};
ghost use Rattle.civl_firing.specs.values.Values.{is_true};
ghost use Rattle.civl_reasons.specs.Reasons.{joins, parts_from, false_parts};
ghost use Rattle.civl_reasons.specs.inner.Told.{subformula};

use crate::count::expr_count;
use civl_bits::Value;
use civl_firing::expressions::value;
use civl_firing::setting::Bindings;
use civl_firing::values::two;
use civl_tree::{Expr, Memory, Two};
use std::alloc::Global;

/// An expression in a formula.
#[derive(Clone, Copy)]
pub struct Part<'e> {
    /// The token at which it begins in the formula's spelling, from 0.
    pub token: usize,
    pub expr: &'e Expr,
}

/// What is known of an expression behind a walk over it.
#[derive(Drop)]
struct Walked {
    value: Value,
    /// The token behind its last one.
    end: usize,
}

/// Whether the sides of an operation tell why it isn't true.
fn joins(op: Two) -> bool
    ensures { result ≡ joins op }
{
    match op {
        Two::And | Two::Or | Two::Implies => true,
        _ => false,
    }
}

/// Whether a value is the bool true.
fn is_true(value: &Value) -> bool
    ensures { result ≡ is_true value.now }
{
    match value {
        Value::Bool(truth) => *truth,
        _ => false,
    }
}

/// Keeps the parts behind the first ones of an expression with this value, unless it is true.
fn keep_if_false(value: &Value, first: usize, parts: &mut Vec<Part<'_>>)
    requires { first ≤ length parts.old.items }
    ensures { parts.new.items ≡ (if is_true value.now then take first parts.old.items else parts.old.items) }
{
    if is_true(value) {
        parts.truncate(first);
    }
}

/// Adds an expression with this value, unless it is true.
fn add_if_false<'e>(value: &Value, part: Part<'e>, parts: &mut Vec<Part<'e>>) -> Result<(), Memory>
    ensures { OnOk result (map subformula parts.new.items
        ≡ map subformula parts.old.items ++ (if is_true value.now then [] else subformula part.entry ∷ [])) }
{
    if !is_true(value) {
        parts.push(part)?;
    }
    Ok(())
}

/// Adds the innermost parts that aren't true of an expression that begins at this token.
fn add_parts<'e, B: Bindings>(
    bindings: &B,
    expr: &'e Expr,
    token: usize,
    parts: &mut Vec<Part<'e>>,
) -> Result<Walked, Memory>
    requires { token + length (spell_expr expr.now) < 2 ^ 64 }
    ensures value { IfOk result (λ walked. walked.value ≡ value_of (B.scope bindings.now) expr.now) }
    ensures end { IfOk result (λ walked. walked.end ≡ token + length (spell_expr expr.now)) }
    ensures parts { OnOk result (map subformula parts.new.items
        ≡ map subformula parts.old.items ++ parts_from (B.scope bindings.now) expr.now token) }
{
    match expr {
        Expr::Two(op, a, b) if joins(*op) => {
            let count = parts.len();
            let Walked { value: left, end } = add_parts(bindings, a.get(), token + 1, parts)?;
            let Walked { value: right, end } = add_parts(bindings, b.get(), end + 1, parts)?;
            let value = two(*op, left, right);
            keep_if_false(&value, count, parts);
            Ok(Walked {
                value,
                end: end + 1,
            })
        }
        _ => {
            let value = value(bindings, expr);
            add_if_false(&value, Part { token, expr }, parts)?;
            Ok(Walked {
                value,
                end: token + expr_count(expr),
            })
        }
    }
}

/// Why a formula isn't true: its innermost parts that aren't, in the order of the text, each with the token at which it
/// begins in the formula's spelling. Of `a && b`, `a || b` and `a => b` that isn't true these are the parts of each side
/// that isn't, which in a false `a => b` of bools is `b` alone; of every other expression that isn't true it is the
/// expression itself. A formula that is true has none.
///
/// Each expression in the formula is evaluated once.
///
/// # Errors
///
/// For want of memory.
pub fn false_parts<'e, B: Bindings>(
    alloc: Global,
    bindings: &B,
    formula: &'e Expr,
) -> Result<Vec<Part<'e>>, Memory>
    requires { length (spell_expr formula.now) < 2 ^ 64 }
    ensures { IfOk result (λ parts. map subformula parts.items ≡ false_parts (B.scope bindings.now) formula.now) }
{
    let mut parts = Vec::new(alloc);
    add_parts(bindings, formula, 0, &mut parts)?;
    Ok(parts)
}
