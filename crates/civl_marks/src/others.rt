// Another value of the same sort.
ghost use Rattle.std.specs.Prelude.{◌≡◌};
ghost use Rattle.civl_marks.specs.Others.{other_number, other_row, other_value};

use civl_bits::{Row, Value, Word};

/// 1 for 0, and 0 for any other number.
fn other_number(number: u32) -> u32
    ensures { result ≡ other_number number }
{
    if number == 0 { 1 } else { 0 }
}

/// The row of zeros, or of ones in its place.
fn other_row(row: Row) -> Row
    ensures { result ≡ other_row row }
{
    let zeros = Row::fill(row.index(), Word::of(row.width(), 0));
    if row == zeros {
        return Row::fill(row.index(), Word::of(row.width(), 1));
    }
    zeros
}

/// The other truth value; the word 0, or 1 in place of 0; the row of zeros, or of ones in its place.
pub(crate) fn other_value(value: Value) -> Value
    ensures { result ≡ other_value value }
{
    match value {
        Value::Bool(bit) => Value::Bool(!bit),
        Value::Word(word) => Value::Word(Word::of(word.width(), other_number(word.value()))),
        Value::Row(row) => Value::Row(other_row(row)),
    }
}
