// Zeros, and the sorts of values.
ghost use Rattle.std.specs.Prelude.{◌≡◌, ◌<◌};
ghost use Rattle.civl_tree.specs.rules.Exprs.{is_width};
ghost use Rattle.civl_bits.specs.Value.{IsValue};
ghost use Rattle.civl_firing.specs.values.Values.{zero_of, is_of, is_true, sort_of_value};

use crate::values::operators::nothing;
use civl_bits::{Row, Value, Word};
use civl_tree::Sort;

/// Whether a word has so many bits.
fn is_width(width: u32) -> bool
    ensures { result ≡ is_width width }
{
    1 <= width && width <= 32
}

/// The zero of a sort: false, 0, or the row of 0. Where the sort's numbers are out of range, which is 1 to 32 for a width
/// and 1 to 6 for index bits, it is [`nothing`].
#[tactic(auto, using(std::proofs::lemmas::Nat::pow_pos))]
pub fn zero(sort: Sort) -> Value
    ensures { result ≡ zero_of sort }
{
    match sort {
        Sort::Bool => Value::Bool(false),
        Sort::Word(width) if 1 <= width && width <= 32 => Value::Word(Word::of(width, 0)),
        Sort::Row(index, width) if 1 <= index && index <= 6 && is_width(width) => {
            Value::Row(Row::fill(index, Word::of(width, 0)))
        }
        _ => nothing(),
    }
}

/// The sort of a value.
pub fn sort_of(value: &Value) -> Sort
    ensures is { result ≡ sort_of_value value.now }
    ensures value { IsValue value.now }
{
    match value {
        Value::Bool(_) => Sort::Bool,
        Value::Word(word) => Sort::Word(word.width()),
        Value::Row(row) => Sort::Row(row.index(), row.width()),
    }
}

/// Whether a value is of a sort.
pub fn is_of(value: Value, sort: Sort) -> bool
    ensures { result ≡ is_of value sort }
{
    match value {
        Value::Bool(_) => match sort {
            Sort::Bool => true,
            _ => false,
        },
        Value::Word(word) => match sort {
            Sort::Word(width) => word.width() == width,
            _ => false,
        },
        Value::Row(row) => match sort {
            Sort::Row(index, width) => row.index() == index && row.width() == width,
            _ => false,
        },
    }
}

/// Whether a value is the bool true. A word or a row isn't.
pub fn is_true(value: Value) -> bool
    ensures { result ≡ is_true value }
{
    match value {
        Value::Bool(value) => value,
        _ => false,
    }
}
