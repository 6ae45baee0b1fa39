// Values of operands by their numbers. A bool has the number 0 or 1, a word its own, and a row that of its bits, cell 0 the lowest.
ghost use Rattle.std.specs.Prelude.{◌≡◌, IsTrue, IfSome};
ghost use Rattle.civl_firing.specs.values.Values.{is_sort};

use crate::operations::Operand;
use civl_bits::{Row, Value, Word};
use civl_tree::{List, Sort};
use std::alloc::Global;

/// The sort of an operand, where words have a width from 1 to 32.
pub(crate) fn sort_of(operand: Operand, width: u32) -> Option<Sort>
    ensures { IfSome result (λ sort. IsTrue (is_sort sort)) }
{
    if width == 0 || width > 32 {
        return None;
    }
    Some(match operand {
        Operand::Bool => Sort::Bool,
        Operand::Index => Sort::Word(1),
        Operand::Word => Sort::Word(width),
        Operand::Row => Sort::Row(1, width),
    })
}

/// How many bits a cell of a value of this sort has; a bool or a word has cell 0 alone.
pub(crate) fn cell_bits(sort: Sort) -> u32 {
    match sort {
        Sort::Bool => 1,
        Sort::Word(width) | Sort::Row(_, width) => width,
    }
}

/// How many bits a value of an operand has.
pub(crate) fn bits_of(operand: Operand, width: u32) -> u32 {
    match operand {
        Operand::Bool | Operand::Index => 1,
        Operand::Word => width,
        Operand::Row => width.saturating_mul(2),
    }
}

/// The lowest bits of a number.
fn lowest(number: u32, width: u32) -> u32 {
    match 1_u32.checked_shl(width) {
        Some(end) if end > 0 => number % end,
        _ => number,
    }
}

/// A number without its lowest bits.
pub(crate) fn behind(number: u32, width: u32) -> u32 {
    number.checked_shr(width).unwrap_or(0)
}

/// The word with the lowest bits of a number.
fn word_of(width: u32, number: u32) -> Option<Word>
    ensures { IfSome result (λ word. word.0 ≡ width) }
{
    Word::new(width, lowest(number, width))
}

/// The row of two cells with the lowest bits of a number.
fn row_of(width: u32, number: u32) -> Option<Row> {
    let first = word_of(width, number)?;
    let second = word_of(width, behind(number, width))?;
    let at = Word::new(1, 1)?;
    Some(Row::fill(1, first).set(at, second))
}

/// The value of an operand with the lowest bits of a number.
fn value_of(operand: Operand, width: u32, number: u32) -> Option<Value> {
    match operand {
        Operand::Bool => Some(Value::Bool(number % 2 == 1)),
        Operand::Index => Some(Value::Word(word_of(1, number)?)),
        Operand::Word => Some(Value::Word(word_of(width, number)?)),
        Operand::Row => Some(Value::Row(row_of(width, number)?)),
    }
}

/// How many lists of values these operands have.
pub(crate) fn count(operands: &[Operand], width: u32) -> Option<u32> {
    let mut bits: u32 = 0;
    for operand in operands {
        bits = bits.saturating_add(bits_of(*operand, width));
    }
    1_u32.checked_shl(bits)
}

/// The numbers of the operands' values in the list of values with this number: the first operand changes the fastest.
pub(crate) fn numbers(
    alloc: Global,
    operands: &[Operand],
    width: u32,
    number: u32,
) -> Option<Vec<u32>> {
    let mut numbers = Vec::new(alloc);
    let mut rest = number;
    for operand in operands {
        let bits = bits_of(*operand, width);
        numbers.push(lowest(rest, bits)).ok()?;
        rest = behind(rest, bits);
    }
    Some(numbers)
}

/// The values of the operands with these numbers.
pub(crate) fn values(
    alloc: Global,
    operands: &[Operand],
    width: u32,
    numbers: &[u32],
) -> Option<List<Value>> {
    let mut values = Vec::new(alloc);
    for at in 0..operands.len() {
        let value = value_of(operands[at], width, *numbers.get(at)?)?;
        values.push(value).ok()?;
    }
    Some(List::from_vec(values))
}

/// The number of a row.
fn row_number(row: &Row) -> u32 {
    let mut number: u32 = 0;
    for at in 0..row.size() {
        let cell = row.cell(row.size() - 1 - at);
        number = number
            .checked_shl(row.width())
            .unwrap_or(0)
            .wrapping_add(cell.value());
    }
    number
}

/// The number of a value.
pub(crate) fn number_of(value: &Value) -> u32 {
    match value {
        Value::Bool(true) => 1,
        Value::Bool(false) => 0,
        Value::Word(word) => word.value(),
        Value::Row(row) => row_number(row),
    }
}
