// Operations with two operands.
ghost use Rattle.std.specs.Prelude.{◌≡◌, Some};
ghost use Rattle.std.specs.Prelude.{false};
ghost use Rattle.civl_bits.specs.Value.{same_value};
ghost use Rattle.civl_bits.specs.declared.value.Value.TheVariants as value;
ghost use Rattle.civl_terms.specs.foldings.Folding.{when, flag, with_itself, after_constant, before_constant, folded_two};

use crate::foldings::constants::{
    is_bit, is_greatest, is_least, is_narrow, is_one, is_ones, is_past, is_zero, ones_like,
    zero_like,
};
use crate::foldings::folded::Folded;
use civl_bits::{Value, Word};
use civl_firing::values::{is_true, zero};
use civl_tree::{Sort, Two};

/// What an operation is where a test holds; else it is a node of its own.
pub(crate) fn when(test: bool, folded: Folded) -> Folded
    ensures { result ≡ when test folded }
{
    if test { folded } else { Folded::New }
}

fn flag(value: bool) -> Folded
    ensures { result ≡ flag value }
{
    Folded::Constant(Value::Bool(value))
}

fn is_false(v: Value) -> bool
    ensures { result ≡ same_value v (value.Bool false) }
{
    v.same(&Value::Bool(false))
}

/// x op x, for x of this sort.
fn with_itself(op: Two, sort: Sort) -> Folded
    ensures { result ≡ with_itself op (Some sort) }
{
    match op {
        Two::Add | Two::Shl => when(is_bit(sort), Folded::Constant(zero(sort))),
        Two::Sub | Two::BitXor | Two::Shr | Two::Urem => Folded::Constant(zero(sort)),
        Two::Mul | Two::Sar => when(is_bit(sort), Folded::First),
        Two::BitAnd | Two::BitOr | Two::And | Two::Or => Folded::First,
        Two::Lt | Two::Ne | Two::Slt => flag(false),
        Two::Le | Two::Eq | Two::Implies | Two::Sle => flag(true),
        Two::Udiv => when(is_bit(sort), Folded::Constant(Value::Word(Word::of(1, 1)))),
    }
}

/// c op x, for a constant c.
fn after_constant(op: Two, c: Value) -> Folded
    ensures { result ≡ after_constant op c }
{
    match op {
        Two::Add | Two::BitXor => when(is_zero(c), Folded::Second),
        Two::Sub => when(is_zero(c) && is_narrow(c), Folded::Second),
        Two::Mul if is_zero(c) => Folded::First,
        Two::Mul => when(is_one(c), Folded::Second),
        Two::BitAnd if is_zero(c) => Folded::First,
        Two::BitAnd => when(is_ones(c), Folded::Second),
        Two::BitOr if is_zero(c) => Folded::Second,
        Two::BitOr => when(is_ones(c), Folded::First),
        Two::Shl | Two::Shr | Two::Urem => when(is_zero(c), Folded::First),
        Two::Lt => when(is_ones(c), flag(false)),
        Two::Le => when(is_zero(c), flag(true)),
        Two::Eq => when(is_true(c), Folded::Second),
        Two::Ne => when(is_false(c), Folded::Second),
        Two::And if is_true(c) => Folded::Second,
        Two::And => Folded::First,
        Two::Or if is_true(c) => Folded::First,
        Two::Or => Folded::Second,
        Two::Implies if is_true(c) => Folded::Second,
        Two::Implies => flag(true),
        Two::Udiv => when(is_one(c) && is_narrow(c), Folded::First),
        Two::Slt => when(is_greatest(c), flag(false)),
        Two::Sle => when(is_least(c), flag(true)),
        Two::Sar => when(is_zero(c) || is_ones(c), Folded::First),
    }
}

/// x op c, for a constant c.
fn before_constant(op: Two, c: Value) -> Folded
    ensures { result ≡ before_constant op c }
{
    match op {
        Two::Add | Two::Sub | Two::BitXor => when(is_zero(c), Folded::First),
        Two::Mul if is_zero(c) => Folded::Second,
        Two::Mul => when(is_one(c), Folded::First),
        Two::BitAnd if is_zero(c) => Folded::Second,
        Two::BitAnd => when(is_ones(c), Folded::First),
        Two::BitOr if is_zero(c) => Folded::First,
        Two::BitOr => when(is_ones(c), Folded::Second),
        Two::Shl | Two::Shr if is_zero(c) => Folded::First,
        Two::Shl | Two::Shr => when(is_past(c), Folded::Constant(zero_like(c))),
        Two::Lt => when(is_zero(c), flag(false)),
        Two::Le => when(is_ones(c), flag(true)),
        Two::Eq => when(is_true(c), Folded::First),
        Two::Ne => when(is_false(c), Folded::First),
        Two::And if is_true(c) => Folded::First,
        Two::And => Folded::Second,
        Two::Or if is_true(c) => Folded::Second,
        Two::Or => Folded::First,
        Two::Implies => when(is_true(c), Folded::Second),
        Two::Udiv if is_zero(c) => Folded::Constant(ones_like(c)),
        Two::Udiv => when(is_one(c), Folded::First),
        Two::Urem if is_zero(c) => Folded::First,
        Two::Urem => when(is_one(c), Folded::Constant(zero_like(c))),
        Two::Slt => when(is_least(c), flag(false)),
        Two::Sle => when(is_greatest(c), flag(true)),
        Two::Sar => when(is_zero(c) || is_narrow(c), Folded::First),
    }
}

/// An operation with two operands of this sort, where the constants among them are given, and `same` says whether they are
/// one.
pub fn two(op: Two, sort: Sort, a: Option<Value>, b: Option<Value>, same: bool) -> Folded
    ensures { result ≡ folded_two op (Some sort) a b same }
{
    match a {
        Some(a) => match b {
            Some(b) => Folded::Constant(civl_firing::values::two(op, a, b)),
            None => after_constant(op, a),
        },
        None => match b {
            Some(b) => before_constant(op, b),
            None => when(same, with_itself(op, sort)),
        },
    }
}
