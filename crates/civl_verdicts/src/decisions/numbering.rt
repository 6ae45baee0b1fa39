// All lists of values of some sorts, by their numbers.
ghost use Rattle.std.specs.Prelude.{◌≡◌, ◌*◌, ◌/◌, ◌%◌, ◌^◌, ◌<◌, ◌≤◌, All, IsTrue, IfOk, IfSome, IfNone};
ghost use Rattle.civl_tree.specs.rules.StoreSize.{bits_of};
ghost use Rattle.civl_tree.specs.rules.Exprs.{is_width, is_index};
ghost use Rattle.civl_firing.specs.values.Values.{is_sort};
ghost use Rattle.civl_verdicts.specs.decisions.Numbered.{cells_numbered, value_numbered, values_numbered, bits_together};

use civl_bits::{Row, Value, Word};
use civl_tree::{List, Memory, Sort};
use std::alloc::Global;

/// Two to this power.
fn power(at: u32) -> u32
    requires { at < 32 }
    ensures { result ≡ 2 ^ at }
{
    1 << at
}

/// The bits of a value of this sort.
fn bits_of(sort: Sort) -> u32
    requires { IsTrue (is_sort sort) }
    ensures { result ≡ bits_of sort }
{
    match sort {
        Sort::Bool => 1,
        Sort::Word(width) => width,
        Sort::Row(index, width) => width * power(index),
    }
}

/// A number shifted by so many bits, where it doesn't pass the most.
fn times(count: u32, bits: u32, most: u32) -> Option<u32>
    requires { 1 ≤ count }
    ensures some { IfSome result (λ n. (n ≡ count * 2 ^ bits) × (n ≤ most) × (1 ≤ n)) }
    ensures none { IfNone result (most < count * 2 ^ bits) }
{
    if bits >= 32 {
        return None;
    }
    let factor = power(bits);
    if count > most / factor {
        return None;
    }
    Some(count * factor)
}

/// The lowest bits of a number, so many.
fn low_bits(number: u32, bits: u32) -> u32
    ensures { result ≡ number % 2 ^ bits }
{
    if bits >= 32 {
        return number;
    }
    number % power(bits)
}

/// A number without its lowest bits, so many.
fn shifted(number: u32, bits: u32) -> u32
    ensures { result ≡ number / 2 ^ bits }
{
    if bits >= 32 {
        return 0;
    }
    number / power(bits)
}

/// A word of this width.
fn word(width: u32, number: u32) -> Word
    requires width { IsTrue (is_width width) }
    requires fits { number < 2 ^ width }
    ensures { result ≡ (width, number) }
{
    match Word::new(width, number) {
        Some(word) => word,
        None => unreachable!(),
    }
}

/// How many lists of values of these sorts there are, where they are no more than the most.
pub(crate) fn count_lists(sorts: &[Sort], most: u32) -> Option<u32>
    requires limits { All (λ s. IsTrue (is_sort s)) sorts.now }
    ensures some { IfSome result (λ n. (n ≡ 2 ^ bits_together sorts.now) × (n ≤ most)) }
    ensures none { IfNone result (most < 2 ^ bits_together sorts.now) }
{
    let mut count = times(1, 0, most)?;
    for sort in sorts {
        count = times(count, bits_of(*sort), most)?;
    }
    Some(count)
}

/// The row whose cells are numbered so.
fn row_numbered(index: u32, width: u32, number: u32) -> Row
    requires index { IsTrue (is_index index) }
    requires width { IsTrue (is_width width) }
    ensures { result ≡ record { index = index; width = width; cells = cells_numbered (2 ^ index) width number } }
{
    let mut rest = number;
    let mut row = Row::fill(index, word(width, 0));
    for at in 0..power(index) {
        row = row.set(word(index, at), word(width, low_bits(rest, width)));
        rest = shifted(rest, width);
    }
    row
}

/// The value that has this number among those of its sort.
fn value_numbered(sort: Sort, number: u32) -> Value
    requires limits { IsTrue (is_sort sort) }
    requires below { number < 2 ^ bits_of sort }
    ensures { result ≡ value_numbered sort number }
{
    match sort {
        Sort::Bool => Value::Bool(number == 1),
        Sort::Word(width) => Value::Word(word(width, number)),
        Sort::Row(index, width) => Value::Row(row_numbered(index, width, number)),
    }
}

/// The list of values that has this number among those of these sorts.
///
/// # Errors
///
/// For want of memory.
pub(crate) fn values_numbered(
    alloc: Global,
    sorts: &[Sort],
    number: u32,
) -> Result<List<Value>, Memory>
    requires { All (λ s. IsTrue (is_sort s)) sorts.now }
    ensures { IfOk result (λ values. values ≡ values_numbered sorts.now number) }
{
    let mut rest = number;
    let mut values = Vec::new(alloc);
    for sort in sorts {
        let bits = bits_of(*sort);
        values.push(value_numbered(*sort, low_bits(rest, bits)))?;
        rest = shifted(rest, bits);
    }
    Ok(List::from_vec(values))
}
