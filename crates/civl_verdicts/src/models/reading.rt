// The values that bits give to variables.
ghost use Rattle.std.specs.Prelude.{◌≡◌, ◌+◌, ◌<◌, ◌≤◌, ◌^◌, length, All, IsTrue, IfOk, Some};
ghost use Rattle.civl_bits.specs.Row.{row_with};
ghost use Rattle.civl_firing.specs.values.Values.{is_sort, sort_of_value};
ghost use Rattle.civl_cnf.specs.ClauseSet.{assignment};
ghost use Rattle.civl_blast.specs.rows.Cells.{cells_in};
ghost use Rattle.civl_blast.specs.Standing.{cell_bits};
ghost use Rattle.civl_verdicts.specs.models.Reading.{number_from, with_cell, IsCellPlace, AreRead};
ghost use Rattle.civl_verdicts.specs.inner.models.Zeros.{zeros_of};

use civl_bits::{Row, Value, Word};
use civl_blast::Place;
use civl_cnf::Bits;
use civl_firing::values::zero;
use civl_tree::{List, Memory, Sort};
use std::alloc::Global;

/// Two to this power.
fn power(at: u32) -> u32
    requires { at < 32 }
    ensures { result ≡ 2 ^ at }
{
    1 << at
}

/// The number whose bits stand from a place on, the lowest first.
fn number_from(bits: &Bits, first: u32, width: u32) -> u32
    requires narrow { width ≤ 32 }
    requires within { first + width ≤ length bits.now }
    ensures { result ≡ number_from (assignment bits.now) first width }
{
    let _count = bits.len();
    let mut number = 0;
    for at in 0..width {
        if bits.get(first + at) {
            number += power(at);
        }
    }
    number
}

/// The word whose bits stand from a place on.
fn word_from(bits: &Bits, first: u32, width: u32) -> Word
    requires narrow { 1 ≤ width }
    requires wide { width ≤ 32 }
    requires within { first + width ≤ length bits.now }
    ensures { result ≡ (width, number_from (assignment bits.now) first width) }
{
    let number = number_from(bits, first, width);
    match Word::new(width, number) {
        Some(word) => word,
        None => unreachable!(),
    }
}

/// The row with the cell whose bits stand from a place on.
fn row_from(row: &Row, cell: u32, bits: &Bits, first: u32) -> Row
    requires cell { cell < 2 ^ row.now.index }
    requires within { first + row.now.width ≤ length bits.now }
    ensures { result ≡ row_with row.now cell (number_from (assignment bits.now) first row.now.width) }
{
    match Word::new(row.index(), cell) {
        Some(at) => row.set(at, word_from(bits, first, row.width())),
        None => unreachable!(),
    }
}

/// The value with the cell whose bits stand from a place on.
fn with_cell(value: &Value, cell: u32, bits: &Bits, first: u32) -> Value
    requires cell { cell < cells_in (Some (sort_of_value value.now)) }
    requires within { first + cell_bits (sort_of_value value.now) ≤ length bits.now }
    ensures { result ≡ with_cell (assignment bits.now) first value.now cell }
{
    match value {
        Value::Bool(_) => Value::Bool(bits.get(first)),
        Value::Word(word) => Value::Word(word_from(bits, first, word.width())),
        Value::Row(row) => Value::Row(row_from(row, cell, bits, first)),
    }
}

/// The zeros of these sorts.
fn zeros(alloc: Global, sorts: &[Sort]) -> Result<Vec<Value>, Memory>
    ensures { IfOk result (λ values. values.items ≡ zeros_of sorts.now) }
{
    let mut values = Vec::new(alloc);
    for sort in sorts {
        values.push(zero(*sort))?;
    }
    Ok(values)
}

/// The values that bits give to variables of these sorts: at each place those that the bits show, and 0 or false elsewhere. There
/// is one for each sort, in their order.
///
/// # Errors
///
/// For want of memory.
pub fn read_back(
    alloc: Global,
    sorts: &[Sort],
    places: &[Place],
    bits: &Bits,
) -> Result<List<Value>, Memory>
    requires limits { All (λ s. IsTrue (is_sort s)) sorts.now }
    requires places { All (IsCellPlace sorts.now (length bits.now)) places.now }
    ensures { IfOk result (AreRead sorts.now places.now (assignment bits.now)) }
{
    let mut values = zeros(alloc, sorts)?;
    for place in places {
        let at = place.variable as usize;
        let value = with_cell(&values[at], place.cell, bits, place.first);
        values[at] = value;
    }
    Ok(List::from_vec(values))
}
