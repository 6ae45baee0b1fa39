// The lines on operations.

use crate::clauses::{clauses_of, given, term};
use crate::operations::{Operand, Operation, Row};
use crate::values::{behind, cell_bits, count, number_of, numbers, values};
use civl_blast::Blasted;
use civl_terms::{Id, Terms, value};
use civl_tree::Sort;
use std::alloc::{AllocError, Global};

/// How many digits a line has at most.
const MOST: usize = 200;

const OCTAL: [&str; 8] = ["0", "1", "2", "3", "4", "5", "6", "7"];

/// An operation over variables: its term, the clauses that another variable is its value, and its sort.
#[derive(Drop)]
struct Made {
    terms: Terms,
    id: Id,
    clauses: Blasted,
    sort: Sort,
}

/// The results of an operation, how many bits each has, and the first list of values at which the clauses don't give the same.
#[derive(Drop)]
struct Table {
    results: Vec<u32>,
    bits: u32,
    differs: Option<u32>,
}

fn make(alloc: Global, operation: Operation, operands: &[Operand], width: u32) -> Option<Made> {
    let mut terms = Terms::new(alloc);
    let id = term(alloc, &mut terms, operation, operands, width)?;
    let (clauses, sort) = clauses_of(alloc, &mut terms, id)?;
    Some(Made {
        terms,
        id,
        clauses,
        sort,
    })
}

/// The number of the value of an operation, where those of its operands have these numbers.
fn number_at(
    alloc: Global,
    made: &Made,
    operands: &[Operand],
    width: u32,
    numbers: &[u32],
) -> Option<u32> {
    if made.id >= made.terms.len() {
        return None;
    }
    let given = values(alloc, operands, width, numbers)?;
    let value = value(alloc, &made.terms, made.id, &given).ok()?;
    Some(number_of(&value))
}

/// The number of the value of an operation at the list of values with this number, and what its clauses give there.
fn both_at(
    alloc: Global,
    made: &Made,
    operands: &[Operand],
    width: u32,
    number: u32,
) -> Option<(u32, u32)> {
    let numbers = numbers(alloc, operands, width, number)?;
    let value = number_at(alloc, made, operands, width, numbers.as_slice())?;
    let found = given(
        alloc,
        &made.clauses,
        made.sort,
        operands,
        width,
        numbers.as_slice(),
    )?;
    Some((value, found))
}

/// How many bits a value of this sort has.
fn bits_in(sort: Sort) -> u32 {
    match sort {
        Sort::Row(index, width) => width.checked_shl(index).unwrap_or(0),
        _ => cell_bits(sort),
    }
}

fn tabulate(alloc: Global, made: &Made, operands: &[Operand], width: u32) -> Option<Table> {
    let mut results = Vec::new(alloc);
    let mut differs = None;
    for number in 0..count(operands, width)? {
        let (value, found) = both_at(alloc, made, operands, width, number)?;
        results.push(value).ok()?;
        if value != found && differs.is_none() {
            differs = Some(number);
        }
    }
    Some(Table {
        results,
        bits: bits_in(made.sort),
        differs,
    })
}

fn table_of(
    alloc: Global,
    operation: Operation,
    operands: &[Operand],
    width: u32,
) -> Option<Table> {
    let made = make(alloc, operation, operands, width)?;
    let table = tabulate(alloc, &made, operands, width);
    drop(made);
    table
}

/// Writes a number of so many digits.
fn put_number(text: &mut String, number: u32, digits: u32) -> Result<(), AllocError> {
    for at in 0..digits {
        let digit = behind(number, (digits - 1 - at).saturating_mul(3)) % 8;
        text.push_str(OCTAL[digit as usize])?;
    }
    Ok(())
}

/// Writes all results.
fn put_results(text: &mut String, results: &[u32], digits: u32) -> Result<(), AllocError> {
    for result in results {
        put_number(text, *result, digits)?;
    }
    Ok(())
}

/// The sum of the results, each times its place from 1.
fn sum(results: &[u32]) -> u64 {
    let mut sum: u64 = 0;
    let mut place: u64 = 0;
    for result in results {
        place = place.saturating_add(1);
        sum = sum.saturating_add(place.saturating_mul(u64::from(*result)));
    }
    sum
}

/// The text of all results, or how many there are and their sum.
fn results_text(alloc: Global, table: &Table) -> Result<String, AllocError> {
    let results = table.results.as_slice();
    let digits = table.bits.div_ceil(3);
    if results.len().saturating_mul(digits as usize) > MOST {
        let (count, sum) = (results.len(), sum(results));
        return format!(in alloc; "{count} results, sum {sum}");
    }
    let mut text = String::new(alloc);
    put_results(&mut text, results, digits)?;
    Ok(text)
}

/// What is said of the clauses: that they give the same, or where they first don't.
fn said(
    alloc: Global,
    table: &Table,
    operands: &[Operand],
    width: u32,
) -> Result<String, AllocError> {
    let mut text = String::new(alloc);
    let Some(number) = table.differs else {
        text.push_str("same")?;
        return Ok(text);
    };
    text.push_str("differs at")?;
    for one in numbers(alloc, operands, width, number).unwrap_or(Vec::new(alloc)) {
        let one = format!(in alloc; " {one}")?;
        text.push_str(one.as_str())?;
    }
    Ok(text)
}

/// The line on an operation over words of a width.
pub(crate) fn line(alloc: Global, head: &str, row: &Row, width: u32) -> Result<String, AllocError> {
    let (_, operation, operands, _) = row;
    match table_of(alloc, *operation, operands, width) {
        None => format!(in alloc; "{head}: no answer\n"),
        Some(table) => {
            let results = results_text(alloc, &table)?;
            let said = said(alloc, &table, operands, width)?;
            format!(in alloc; "{head}: {results} {said}\n")
        }
    }
}
