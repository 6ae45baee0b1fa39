// The constants at which an operation is a constant or one of its operands.
ghost use Rattle.std.specs.Prelude.{◌≡◌, ◌<◌, Some};
ghost use Rattle.civl_terms.specs.foldings.Constants.{is_bit, is_zero, is_one, is_ones, is_least, is_greatest, is_past, is_narrow, zero_like, ones_like, is_filled, first_cell, is_identity, counts_from};

use civl_bits::{Row, Value, Word};
use civl_firing::values::nothing;
use civl_tree::Sort;

/// Whether the sort is that of words of one bit.
pub(crate) fn is_bit(sort: Sort) -> bool
    ensures { result ≡ is_bit (Some sort) }
{
    match sort {
        Sort::Word(width) => width == 1,
        _ => false,
    }
}

/// Whether a value is the word 0.
pub(crate) fn is_zero(value: Value) -> bool
    ensures { result ≡ is_zero value }
{
    match value {
        Value::Word(word) => word.value() == 0,
        _ => false,
    }
}

/// Whether a value is the word 1.
pub(crate) fn is_one(value: Value) -> bool
    ensures { result ≡ is_one value }
{
    match value {
        Value::Word(word) => word.value() == 1,
        _ => false,
    }
}

/// Whether a value is a word all whose bits are 1.
pub(crate) fn is_ones(value: Value) -> bool
    ensures { result ≡ is_ones value }
{
    match value {
        Value::Word(word) => u64::from(word.value()) == (1u64 << word.width()) - 1,
        _ => false,
    }
}

/// Whether a value is the least word by two's complement.
pub(crate) fn is_least(value: Value) -> bool
    ensures { result ≡ is_least value }
{
    match value {
        Value::Word(word) => u64::from(word.value()) == 1u64 << (word.width() - 1),
        _ => false,
    }
}

/// Whether a value is the greatest word by two's complement.
pub(crate) fn is_greatest(value: Value) -> bool
    ensures { result ≡ is_greatest value }
{
    match value {
        Value::Word(word) => u64::from(word.value()) == (1u64 << (word.width() - 1)) - 1,
        _ => false,
    }
}

/// Whether a value is an amount that moves every bit out.
pub(crate) fn is_past(value: Value) -> bool
    ensures { result ≡ is_past value }
{
    match value {
        Value::Word(word) => word.width() <= word.value(),
        _ => false,
    }
}

/// Whether a value is a word of one bit.
pub(crate) fn is_narrow(value: Value) -> bool
    ensures { result ≡ is_narrow value }
{
    match value {
        Value::Word(word) => word.width() == 1,
        _ => false,
    }
}

/// The word 0 as wide as this one.
pub(crate) fn zero_like(value: Value) -> Value
    ensures { result ≡ zero_like value }
{
    match value {
        Value::Word(word) => Value::Word(Word::of(word.width(), 0)),
        _ => nothing(),
    }
}

/// The word as wide as this one all whose bits are 1.
pub(crate) fn ones_like(value: Value) -> Value
    ensures { result ≡ ones_like value }
{
    match value {
        Value::Word(word) => Value::Word(Word::of(word.width(), 0).not()),
        _ => nothing(),
    }
}

/// Whether a value is a row all whose cells are one word.
pub(crate) fn is_filled(value: &Value) -> bool
    ensures { result ≡ is_filled value.now }
{
    match value {
        Value::Row(row) => *row == Row::fill(row.index(), row.cell(0)),
        _ => false,
    }
}

/// The first cell of a row.
pub(crate) fn first_cell(value: &Value) -> Value
    ensures { result ≡ first_cell value.now }
{
    match value {
        Value::Row(row) => Value::Word(row.cell(0)),
        _ => nothing(),
    }
}

/// Whether the cell at each index is this index.
fn counts(row: &Row) -> bool
    ensures { result ≡ counts_from 0 row.now.cells }
{
    for at in 0..row.size() {
        if row.cell(at).value() != at {
            return false;
        }
    }
    true
}

/// Whether a value is the row whose cell at each index is this index.
pub(crate) fn is_identity(value: &Value) -> bool
    ensures { result ≡ is_identity value.now }
{
    match value {
        Value::Row(row) => row.index() == row.width() && counts(row),
        _ => false,
    }
}
