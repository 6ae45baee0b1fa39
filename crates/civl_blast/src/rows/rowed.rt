// The cells of rows, and of what is read from them.
ghost use Rattle.std.specs.Prelude.{◌≡◌, ◌<◌, ℕ, List, length, IfOk};
ghost use Rattle.civl_bits.specs.declared.value.Value.TheVariants as value;
ghost use Rattle.civl_terms.specs.declared.node.Node.TheVariants as node;
ghost use Rattle.civl_terms.specs.Graphs.{sort_at};
ghost use Rattle.civl_terms.specs.Building.{Grows};
ghost use Rattle.civl_blast.specs.inner.rows.Making.{Here, MakesCells, cells_at, Joins, index_in};

use crate::rows::cells::{constant_cells, fill_cells, pick_cells, single};
use crate::rows::compare;
use crate::rows::memory::Memory;
use crate::rows::plain::cell;
use crate::rows::read::read_cell;
use crate::rows::write::write_cells;
use civl_bits::Row;
use civl_terms::{Id, Terms};
use civl_tree::{List, Sort, Two};
use std::alloc::Global;

/// The cells of a part.
fn cells(table: &[List<Id>], part: Id) -> &[Id]
    requires { part < length table.now }
    ensures { result.now ≡ cells_at table.now part }
{
    table[part].as_slice()
}

/// The number of bits of a row's index.
fn index_of(terms: &Terms, row: Id) -> u32
    requires { row < length terms.now }
    ensures { result ≡ index_in (sort_at terms.now row) }
{
    match terms.sort(row) {
        Sort::Row(index, _) => index,
        _ => 0,
    }
}

/// A constant row.
pub(crate) fn constant(
    alloc: Global,
    terms: &mut Terms,
    at: Id,
    row: Row,
) -> Result<List<Id>, Memory>
    requires here { (table : List (List ℕ)) → Here terms.old table (node.Constant (value.Row row)) at }
    ensures grows { Grows terms.old terms.new }
    ensures made { IfOk result (λ ids. (table : List (List ℕ)) → MakesCells terms.old terms.new table (node.Constant (value.Row row)) at ids) }
{
    let ids = constant_cells(alloc, terms, row)?;
    Ok(ids)
}

/// `c ? a : b`.
pub(crate) fn pick(
    alloc: Global,
    terms: &mut Terms,
    table: &[List<Id>],
    at: Id,
    c: Id,
    a: Id,
    b: Id,
) -> Result<List<Id>, Memory>
    requires size { length table.now ≡ at }
    requires here { Here terms.old table.now (node.Pick c a b) at }
    ensures grows { Grows terms.old terms.new }
    ensures made { IfOk result (λ ids. MakesCells terms.old terms.new table.now (node.Pick c a b) at ids) }
{
    let test = cell(table, c);
    let first = cells(table, a);
    let second = cells(table, b);
    let ids = pick_cells(alloc, terms, test, first, second)?;
    Ok(ids)
}

/// `get(row, index)`.
pub(crate) fn get(
    alloc: Global,
    terms: &mut Terms,
    table: &[List<Id>],
    at: Id,
    row: Id,
    index: Id,
) -> Result<List<Id>, Memory>
    requires size { length table.now ≡ at }
    requires here { Here terms.old table.now (node.Get row index) at }
    ensures grows { Grows terms.old terms.new }
    ensures made { IfOk result (λ ids. MakesCells terms.old terms.new table.now (node.Get row index) at ids) }
{
    let bits = index_of(terms, row);
    let place = cell(table, index);
    let from = cells(table, row);
    let id = read_cell(alloc, terms, bits, from, place)?;
    let ids = single(alloc, id)?;
    Ok(ids)
}

/// `set(row, index, new)`.
pub(crate) fn set(
    alloc: Global,
    terms: &mut Terms,
    table: &[List<Id>],
    at: Id,
    row: Id,
    index: Id,
    new: Id,
) -> Result<List<Id>, Memory>
    requires size { length table.now ≡ at }
    requires here { Here terms.old table.now (node.Set row index new) at }
    ensures grows { Grows terms.old terms.new }
    ensures made { IfOk result (λ ids. MakesCells terms.old terms.new table.now (node.Set row index new) at ids) }
{
    let bits = index_of(terms, row);
    let place = cell(table, index);
    let value = cell(table, new);
    let from = cells(table, row);
    let ids = write_cells(alloc, terms, bits, from, place, value)?;
    Ok(ids)
}

/// `fill(index, a)`.
pub(crate) fn fill(
    alloc: Global,
    terms: &Terms,
    table: &[List<Id>],
    at: Id,
    index: u32,
    a: Id,
) -> Result<List<Id>, Memory>
    requires size { length table.now ≡ at }
    requires here { Here terms.now table.now (node.Fill index a) at }
    ensures { IfOk result (λ ids. MakesCells terms.now terms.now table.now (node.Fill index a) at ids) }
{
    let first = cell(table, a);
    let ids = fill_cells(alloc, index, first)?;
    Ok(ids)
}

/// `==` or `!=`.
pub(crate) fn compare(
    alloc: Global,
    terms: &mut Terms,
    table: &[List<Id>],
    at: Id,
    op: Two,
    join: Two,
    a: Id,
    b: Id,
) -> Result<List<Id>, Memory>
    requires size { length table.now ≡ at }
    requires joins { Joins op join }
    requires here { Here terms.old table.now (node.Two op a b) at }
    ensures grows { Grows terms.old terms.new }
    ensures made { IfOk result (λ ids. MakesCells terms.old terms.new table.now (node.Two op a b) at ids) }
{
    let first = cells(table, a);
    let second = cells(table, b);
    let id = compare::compare(terms, op, join, first, second)?;
    let ids = single(alloc, id)?;
    Ok(ids)
}
