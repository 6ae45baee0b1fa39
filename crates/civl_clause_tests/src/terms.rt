// Terms over two words of 2 bits, an index of 1 bit and a row of 2 cells: their values at all values of these, and whether their
// clauses can be true.
ghost use Rattle.std.specs.Prelude.{◌≡◌, ◌<◌, length, Some};
ghost use Rattle.civl_tree.specs.declared.expr.Sort.TheVariants as sort;
ghost use Rattle.civl_terms.specs.Graphs.{sort_at};

use crate::measuring::{has_sort, measure, pair, variable};
use civl_bits::{Value, Word};
use civl_blast::{Blasted, blast};
use civl_cdcl::{Outcome, solve};
use civl_terms::{Id, Memory, Terms, value};
use civl_tree::{List, One, Sort, Two};
use std::alloc::Global;
use std::test::Fail;

const WORD: Sort = Sort::Word(2);

const ROW: Sort = Sort::Row(1, 2);

const INDEX: Sort = Sort::Word(1);

/// A term over the words x and y, the row r and the index i.
#[derive(Clone, Copy, Debug, PartialEq, Eq)]
enum Shape {
    /// `(x * y) == get(r, i)`
    Product,
    /// `set(r, i, x) == fill(1, y)`
    Rows,
    /// `slt(get(set(r, i, y), ~i), (x / y))`
    Signed,
}

/// Each term, and at how many of the 512 values it is true.
const SHAPES: [(Shape, u32); 3] = [
    (Shape::Product, 128),
    (Shape::Rows, 32),
    (Shape::Signed, 232),
];

#[derive(Clone, Copy)]
struct Inputs {
    x: Id,
    y: Id,
    row: Id,
    at: Id,
}

fn product(terms: &mut Terms, inputs: Inputs) -> Result<Id, Memory>
    requires x { sort_at terms.old inputs.x ≡ Some (sort.Word 2) }
    requires y { sort_at terms.old inputs.y ≡ Some (sort.Word 2) }
    requires row { sort_at terms.old inputs.row ≡ Some (sort.Row 1 2) }
    requires at { sort_at terms.old inputs.at ≡ Some (sort.Word 1) }
    requires xs { inputs.x < length terms.old }
    requires ys { inputs.y < length terms.old }
    requires rows { inputs.row < length terms.old }
    requires ats { inputs.at < length terms.old }
{
    let product = terms.two(Two::Mul, inputs.x, inputs.y)?;
    let cell = terms.get(inputs.row, inputs.at)?;
    terms.two(Two::Eq, product, cell)
}

fn rows(terms: &mut Terms, inputs: Inputs) -> Result<Id, Memory>
    requires x { sort_at terms.old inputs.x ≡ Some (sort.Word 2) }
    requires y { sort_at terms.old inputs.y ≡ Some (sort.Word 2) }
    requires row { sort_at terms.old inputs.row ≡ Some (sort.Row 1 2) }
    requires at { sort_at terms.old inputs.at ≡ Some (sort.Word 1) }
    requires xs { inputs.x < length terms.old }
    requires ys { inputs.y < length terms.old }
    requires rows { inputs.row < length terms.old }
    requires ats { inputs.at < length terms.old }
{
    let written = terms.set(inputs.row, inputs.at, inputs.x)?;
    let filled = terms.fill(1, inputs.y)?;
    terms.two(Two::Eq, written, filled)
}

fn signed(terms: &mut Terms, inputs: Inputs) -> Result<Id, Memory>
    requires x { sort_at terms.old inputs.x ≡ Some (sort.Word 2) }
    requires y { sort_at terms.old inputs.y ≡ Some (sort.Word 2) }
    requires row { sort_at terms.old inputs.row ≡ Some (sort.Row 1 2) }
    requires at { sort_at terms.old inputs.at ≡ Some (sort.Word 1) }
    requires xs { inputs.x < length terms.old }
    requires ys { inputs.y < length terms.old }
    requires rows { inputs.row < length terms.old }
    requires ats { inputs.at < length terms.old }
{
    let written = terms.set(inputs.row, inputs.at, inputs.y)?;
    let other = terms.one(One::Flip, inputs.at)?;
    let cell = terms.get(written, other)?;
    let quotient = terms.two(Two::Udiv, inputs.x, inputs.y)?;
    terms.two(Two::Slt, cell, quotient)
}

fn term(terms: &mut Terms, shape: Shape) -> Result<Option<Id>, Memory> {
    let x = variable(terms, 0, WORD)?;
    let y = variable(terms, 1, WORD)?;
    let row = variable(terms, 2, ROW)?;
    let at = variable(terms, 3, INDEX)?;
    let (Some(x), Some(y), Some(row), Some(at)) = (x, y, row, at) else {
        return Ok(None);
    };
    let words = has_sort(terms, x, WORD) && has_sort(terms, y, WORD);
    if !words || !has_sort(terms, row, ROW) || !has_sort(terms, at, INDEX) {
        return Ok(None);
    }
    let inputs = Inputs { x, y, row, at };
    let id = match shape {
        Shape::Product => product(terms, inputs)?,
        Shape::Rows => rows(terms, inputs)?,
        Shape::Signed => signed(terms, inputs)?,
    };
    Ok(Some(id))
}

/// The values of x, y, r and i with the lowest nine bits of a number.
fn values(alloc: Global, number: u32) -> Result<Option<List<Value>>, Memory> {
    let x = Word::new(2, number % 4);
    let y = Word::new(2, number / 4 % 4);
    let row = pair(number / 16 % 4, number / 64 % 4);
    let at = Word::new(1, number / 256 % 2);
    let (Some(x), Some(y), Some(row), Some(at)) = (x, y, row, at) else {
        return Ok(None);
    };
    let mut values = Vec::new(alloc);
    values.push(Value::Word(x))?;
    values.push(Value::Word(y))?;
    values.push(Value::Row(row))?;
    values.push(Value::Word(at))?;
    Ok(Some(List::from_vec(values)))
}

/// Whether the term is true at the values with these bits.
fn is_true_at(alloc: Global, terms: &Terms, id: Id, number: u32) -> Result<bool, Memory> {
    let Some(values) = values(alloc, number)? else {
        return Ok(false);
    };
    if id >= terms.len() {
        return Ok(false);
    }
    let found = value(alloc, terms, id, &values)?;
    Ok(found == Value::Bool(true))
}

/// At how many of the values with nine bits the term is true.
fn trues(alloc: Global, terms: &Terms, id: Id) -> Result<u32, Memory> {
    let mut count: u32 = 0;
    for number in 0..512 {
        if is_true_at(alloc, terms, id, number)? {
            count = count.saturating_add(1);
        }
    }
    Ok(count)
}

/// At how many values the term of this shape is true.
fn trues_of(alloc: Global, shape: Shape) -> Result<Option<u32>, Memory> {
    let mut terms = Terms::new(alloc);
    match term(&mut terms, shape)? {
        None => Ok(None),
        Some(id) => Ok(Some(trues(alloc, &terms, id)?)),
    }
}

#[test]
fn terms_have_their_values(rt: HostRuntime) -> Result<(), Fail> {
    for (shape, trues) in SHAPES.as_slice() {
        let found = trues_of(rt.alloc(), *shape)?;
        assert_eq!(rt; found, Some(*trues), "{shape:?}");
    }
    Ok(())
}

/// The clauses of a boolean term, where it weighs few.
fn blasted(alloc: Global, terms: &mut Terms, id: Id) -> Result<Option<Blasted>, Fail> {
    if !has_sort(terms, id, Sort::Bool) {
        return Ok(None);
    }
    match measure(terms) {
        Some(weight) if weight <= 1_600_000 => {}
        _ => return Ok(None),
    }
    let blasted = blast(alloc, terms, id)?;
    Ok(Some(blasted))
}

/// Whether the clauses of the term of this shape can be true.
fn can_be_true(alloc: Global, shape: Shape) -> Result<Option<bool>, Fail> {
    let mut terms = Terms::new(alloc);
    let Some(id) = term(&mut terms, shape)? else {
        return Ok(None);
    };
    let Some(blasted) = blasted(alloc, &mut terms, id)? else {
        return Ok(None);
    };
    match solve(alloc, &blasted.cnf, 1000)? {
        Outcome::Sat(_) => Ok(Some(true)),
        Outcome::Unsat(_) => Ok(Some(false)),
        Outcome::Spent(_) => Ok(None),
    }
}

#[test]
fn clauses_can_be_true(rt: HostRuntime) -> Result<(), Fail> {
    for (shape, _trues) in SHAPES.as_slice() {
        let found = can_be_true(rt.alloc(), *shape)?;
        assert_eq!(rt; found, Some(true), "{shape:?}");
    }
    Ok(())
}
