// Operations with other operands than two of one sort.
ghost use Rattle.std.specs.Prelude.{◌≡◌, Some, None};
ghost use Rattle.civl_terms.specs.foldings.Folding.{folded_one, folded_choice, known_where, folded_pick, folded_get, folded_set, folded_fill, folded_slice, folded_widen, folded_join};

use crate::foldings::constants::{first_cell, is_filled, is_identity};
use crate::foldings::folded::Folded;
use crate::foldings::pairs::when;
use civl_bits::Value;
use civl_firing::values::is_true;
use civl_tree::One;

/// `!`, `~` and `-`, where the operand is given if it is a constant.
pub fn one(op: One, a: Option<Value>) -> Folded
    ensures { result ≡ folded_one op a }
{
    match a {
        Some(a) => Folded::Constant(civl_firing::values::one(op, a)),
        None => Folded::New,
    }
}

/// What an operand is where the test, which it may be itself, has this value.
fn known_where(test: bool, is_test: bool, a: Option<Value>) -> Option<Value>
    ensures { result ≡ known_where test is_test a }
{
    if is_test { Some(Value::Bool(test)) } else { a }
}

/// `c ? a : b`, where a is known where c is true, and b where c is false.
fn choice(a: Option<Value>, b: Option<Value>) -> Folded
    ensures { result ≡ folded_choice a b }
{
    match a {
        Some(a) => match b {
            Some(b) if a.same(&b) => Folded::Constant(a),
            Some(b) => when(is_true(a) && b.same(&Value::Bool(false)), Folded::First),
            None => Folded::New,
        },
        None => Folded::New,
    }
}

/// `c ? a : b`, where the constants among the operands are given; `a_test` and `b_test` say whether a and b are c, and
/// `same` whether a and b are one.
pub fn pick(
    c: Option<Value>,
    a: Option<Value>,
    b: Option<Value>,
    a_test: bool,
    b_test: bool,
    same: bool,
) -> Folded
    ensures { result ≡ folded_pick c a b a_test b_test same }
{
    match c {
        Some(c) if is_true(c) => Folded::Second,
        Some(_) => Folded::Third,
        None if same => Folded::Second,
        None => choice(known_where(true, a_test, a), known_where(false, b_test, b)),
    }
}

/// The cell of a constant row at an index that isn't constant.
fn get_of(row: &Value) -> Folded
    ensures { result ≡ folded_get (Some row.now) None }
{
    if is_filled(row) {
        return Folded::Constant(first_cell(row));
    }
    when(is_identity(row), Folded::Second)
}

/// The cell of a row at an index, where the constants among them are given.
pub fn get(row: Option<Value>, at: Option<Value>) -> Folded
    ensures { result ≡ folded_get row at }
{
    match row {
        Some(row) => match at {
            Some(at) => Folded::Constant(civl_firing::values::get(row, at)),
            None => get_of(&row),
        },
        None => Folded::New,
    }
}

/// A row with another cell at an index, where the constants among them are given; `same` says whether the index and the cell
/// are one.
pub fn set(row: Option<Value>, at: Option<Value>, cell: Option<Value>, same: bool) -> Folded
    ensures { result ≡ folded_set row at cell same }
{
    match row {
        Some(row) => match cell {
            Some(cell) => match at {
                Some(at) => Folded::Constant(civl_firing::values::set(row, at, cell)),
                None => when(
                    is_filled(&row) && first_cell(&row).same(&cell),
                    Folded::First,
                ),
            },
            None => when(is_identity(&row) && same, Folded::First),
        },
        None => Folded::New,
    }
}

/// The row whose cells are all one word, where this is given if it is a constant.
pub fn fill(index: u32, cell: Option<Value>) -> Folded
    ensures { result ≡ folded_fill index cell }
{
    match cell {
        Some(cell) => Folded::Constant(civl_firing::values::fill(index, cell)),
        None => Folded::New,
    }
}

/// The bits `high` down to `low`, where the word is given if it is a constant.
pub fn slice(a: Option<Value>, high: u32, low: u32) -> Folded
    ensures { result ≡ folded_slice a high low }
{
    match a {
        Some(a) => Folded::Constant(civl_firing::values::slice(a, high, low)),
        None => Folded::New,
    }
}

/// A word with zeros above, where the word is given if it is a constant.
pub fn widen(a: Option<Value>, width: u32) -> Folded
    ensures { result ≡ folded_widen a width }
{
    match a {
        Some(a) => Folded::Constant(civl_firing::values::widen(a, width)),
        None => Folded::New,
    }
}

/// The bits of the first word above those of the second, where the constants among them are given.
pub fn join(a: Option<Value>, b: Option<Value>) -> Folded
    ensures { result ≡ folded_join a b }
{
    match a {
        Some(a) => match b {
            Some(b) => Folded::Constant(civl_firing::values::join(a, b)),
            None => Folded::New,
        },
        None => Folded::New,
    }
}
