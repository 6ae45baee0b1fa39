// The values of the operators of expressions.
ghost use Rattle.std.specs.Prelude.{◌≡◌, MatchOption};
ghost use Rattle.civl_firing.specs.inner.values.Operands.{AreWords, NoWords, AreBools, NoBools};
ghost use Rattle.civl_firing.specs.values.Operators.{nothing, literal_value, not_value, one_value, two_value, pick_value, get_value, set_value, fill_value, slice_value, widen_value, join_value};

use civl_bits::{Row, Value, Word};
use civl_tree::{One, Two};

/// The value that stands where sorts don't fit.
pub fn nothing() -> Value
    ensures { result ≡ nothing }
{
    Value::Bool(false)
}

/// A literal: the word of this width, 1 to 32, with this number. Where the width or the number doesn't fit it is
/// [`nothing`].
#[tactic(auto, using(crate::proofs::values::Operating::operating))]
pub fn literal(number: u32, width: u32) -> Value
    ensures { result ≡ literal_value number width }
{
    match Word::new(width, number) {
        Some(word) => Value::Word(word),
        None => nothing(),
    }
}

fn not(a: Value) -> Value
    ensures { result ≡ not_value a }
{
    match a {
        Value::Bool(a) => Value::Bool(!a),
        _ => nothing(),
    }
}

/// `!`, `~` and `-`. `!` of a value that is no bool, and `~` and `-` of one that is no word, are [`nothing`].
pub fn one(op: One, a: Value) -> Value
    ensures { result ≡ one_value op a }
{
    match op {
        One::Not => not(a),
        One::Flip => match a {
            Value::Word(a) => Value::Word(a.not()),
            _ => nothing(),
        },
        One::Minus => match a {
            Value::Word(a) => Value::Word(a.neg()),
            _ => nothing(),
        },
    }
}

/// Two words of one width, where these are.
fn words(a: Value, b: Value) -> Option<(Word, Word)>
    ensures { MatchOption result (NoWords a b) (λ both. AreWords a b both.0 both.1) }
{
    match a {
        Value::Word(a) => match b {
            Value::Word(b) if a.width() == b.width() => Some((a, b)),
            _ => None,
        },
        _ => None,
    }
}

/// Two bools, where these are.
fn bools(a: Value, b: Value) -> Option<(bool, bool)>
    ensures { MatchOption result (NoBools a b) (λ both. AreBools a b both.0 both.1) }
{
    match a {
        Value::Bool(a) => match b {
            Value::Bool(b) => Some((a, b)),
            _ => None,
        },
        _ => None,
    }
}

/// An operation on two words of one width.
#[tactic(auto, using(crate::proofs::values::Operating::operating))]
fn on_words(op: Two, a: Word, b: Word) -> Value
    requires { a.0 ≡ b.0 }
    ensures { result ≡ two_value op (Value.Word a) (Value.Word b) }
{
    match op {
        Two::Add => Value::Word(a.add(b)),
        Two::Sub => Value::Word(a.sub(b)),
        Two::Mul => Value::Word(a.mul(b)),
        Two::BitAnd => Value::Word(a.and(b)),
        Two::BitOr => Value::Word(a.or(b)),
        Two::BitXor => Value::Word(a.xor(b)),
        Two::Shl => Value::Word(a.shl(b)),
        Two::Shr => Value::Word(a.shr(b)),
        Two::Udiv => Value::Word(a.udiv(b)),
        Two::Urem => Value::Word(a.urem(b)),
        Two::Sar => Value::Word(a.sar(b)),
        Two::Lt => Value::Bool(a.ult(b)),
        Two::Le => Value::Bool(a.ule(b)),
        Two::Slt => Value::Bool(a.slt(b)),
        Two::Sle => Value::Bool(a.sle(b)),
        Two::Eq => Value::Bool(Value::Word(a).same(&Value::Word(b))),
        Two::Ne => Value::Bool(!Value::Word(a).same(&Value::Word(b))),
        Two::And | Two::Or | Two::Implies => nothing(),
    }
}

/// An operation on two bools.
fn on_bools(op: Two, a: bool, b: bool) -> Value
    ensures { result ≡ two_value op (Value.Bool a) (Value.Bool b) }
{
    match op {
        Two::And => Value::Bool(a && b),
        Two::Or => Value::Bool(a || b),
        Two::Implies => Value::Bool(!a || b),
        Two::Eq => Value::Bool(Value::Bool(a).same(&Value::Bool(b))),
        Two::Ne => Value::Bool(!Value::Bool(a).same(&Value::Bool(b))),
        _ => nothing(),
    }
}

/// The operations with two operands. `==` and `!=` compare any two values: those of two sorts aren't equal, so `==` is false
/// and `!=` is true. `&&`, `||` and `==>` of two values that aren't both bools are [`nothing`], and so are the others of two
/// that aren't both words of one width.
#[tactic(auto, using(crate::proofs::values::Operating::misfits))]
pub fn two(op: Two, a: Value, b: Value) -> Value
    ensures { result ≡ two_value op a b }
{
    match op {
        Two::Eq => Value::Bool(a.same(&b)),
        Two::Ne => Value::Bool(!a.same(&b)),
        Two::And | Two::Or | Two::Implies => match bools(a, b) {
            Some((a, b)) => on_bools(op, a, b),
            None => nothing(),
        },
        _ => match words(a, b) {
            Some((a, b)) => on_words(op, a, b),
            None => nothing(),
        },
    }
}

/// `c ? a : b`: `a` where `test` is true and `b` where it is false, also where these are of two sorts. Where `test` is no
/// bool it is [`nothing`].
pub fn pick(test: Value, a: Value, b: Value) -> Value
    ensures { result ≡ pick_value test a b }
{
    match test {
        Value::Bool(true) => a,
        Value::Bool(false) => b,
        _ => nothing(),
    }
}

/// The cell of a row at an index. Where `row` is no row, or `at` no word of the row's index bits, it is [`nothing`].
pub fn get(row: Value, at: Value) -> Value
    ensures { result ≡ get_value row at }
{
    match row {
        Value::Row(row) => match at {
            Value::Word(at) if at.width() == row.index() => Value::Word(row.get(at)),
            _ => nothing(),
        },
        _ => nothing(),
    }
}

/// A row with another cell at an index. Where `row` is no row, `at` no word of its index bits, or `cell` no word of its
/// width, it is [`nothing`].
pub fn set(row: Value, at: Value, cell: Value) -> Value
    ensures { result ≡ set_value row at cell }
{
    match row {
        Value::Row(row) => match at {
            Value::Word(at) => match cell {
                Value::Word(cell) if at.width() == row.index() && cell.width() == row.width() => {
                    Value::Row(row.set(at, cell))
                }
                _ => nothing(),
            },
            _ => nothing(),
        },
        _ => nothing(),
    }
}

/// The row of so many index bits, 1 to 6, whose cells are all one word. Where the bits are others, or `cell` is no word, it is
/// [`nothing`].
pub fn fill(index: u32, cell: Value) -> Value
    ensures { result ≡ fill_value index cell }
{
    match cell {
        Value::Word(cell) if 1 <= index && index <= 6 => Value::Row(Row::fill(index, cell)),
        _ => nothing(),
    }
}

/// The bits `high` down to `low` of a word. Where `a` is no word, `low` is above `high`, or `high` isn't below the word's
/// width, it is [`nothing`].
pub fn slice(a: Value, high: u32, low: u32) -> Value
    ensures { result ≡ slice_value a high low }
{
    match a {
        Value::Word(a) if low <= high && high < a.width() => Value::Word(a.slice(high, low)),
        _ => nothing(),
    }
}

/// A word with zeros above, up to a width. Where `a` is no word, or the width is below the word's or above 32, it is
/// [`nothing`].
pub fn widen(a: Value, width: u32) -> Value
    ensures { result ≡ widen_value a width }
{
    match a {
        Value::Word(a) if a.width() <= width && width <= 32 => Value::Word(a.widen(width)),
        _ => nothing(),
    }
}

/// The bits of the first word above those of the second. Where these aren't two words, or have more than 32 bits in all, it is
/// [`nothing`].
pub fn join(a: Value, b: Value) -> Value
    ensures { result ≡ join_value a b }
{
    match a {
        Value::Word(a) => match b {
            Value::Word(b) if a.width() + b.width() <= 32 => Value::Word(a.join(b)),
            _ => nothing(),
        },
        _ => nothing(),
    }
}
