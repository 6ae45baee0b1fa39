// The only cell of a node that is a bool or a word.
ghost use Rattle.std.specs.Prelude.{◌≡◌, ◌<◌, List, false, length, slice_index, IfOk};
ghost use Rattle.civl_bits.specs.declared.value.Value.TheVariants as value;
ghost use Rattle.civl_terms.specs.declared.node.Node.TheVariants as node;
ghost use Rattle.civl_terms.specs.Building.{Grows};
ghost use Rattle.civl_blast.specs.inner.rows.Making.{Here, MakesCells, cells_at, is_comparison};

use crate::rows::building;
use crate::rows::cells::single;
use crate::rows::memory::Memory;
use civl_terms::{Id, Terms};
use civl_tree::{List, One, Two};
use std::alloc::Global;

/// The only cell of a part that is a bool or a word.
pub(crate) fn cell(table: &[List<Id>], part: Id) -> Id
    requires within { part < length table.now }
    requires some { 0 < length (cells_at table.now part) }
    ensures { result ≡ slice_index (cells_at table.now part) 0 }
{
    *table[part].get(0)
}

/// `!`, `~` or `-`.
pub(crate) fn one(
    alloc: Global,
    terms: &mut Terms,
    table: &[List<Id>],
    at: Id,
    op: One,
    a: Id,
) -> Result<List<Id>, Memory>
    requires size { length table.now ≡ at }
    requires here { Here terms.old table.now (node.One op a) at }
    ensures grows { Grows terms.old terms.new }
    ensures made { IfOk result (λ ids. MakesCells terms.old terms.new table.now (node.One op a) at ids) }
{
    let first = cell(table, a);
    let id = building::one(terms, op, first)?;
    let ids = single(alloc, id)?;
    Ok(ids)
}

/// An operation on two words or two bools, which is no comparison of rows.
pub(crate) fn two(
    alloc: Global,
    terms: &mut Terms,
    table: &[List<Id>],
    at: Id,
    op: Two,
    a: Id,
    b: Id,
) -> Result<List<Id>, Memory>
    requires size { length table.now ≡ at }
    requires other { is_comparison op ≡ false }
    requires here { Here terms.old table.now (node.Two op a b) at }
    ensures grows { Grows terms.old terms.new }
    ensures made { IfOk result (λ ids. MakesCells terms.old terms.new table.now (node.Two op a b) at ids) }
{
    let first = cell(table, a);
    let second = cell(table, b);
    let id = building::two(terms, op, first, second)?;
    let ids = single(alloc, id)?;
    Ok(ids)
}

/// `slice(a, high, low)`.
pub(crate) fn slice(
    alloc: Global,
    terms: &mut Terms,
    table: &[List<Id>],
    at: Id,
    a: Id,
    high: u32,
    low: u32,
) -> Result<List<Id>, Memory>
    requires size { length table.now ≡ at }
    requires here { Here terms.old table.now (node.Slice a high low) at }
    ensures grows { Grows terms.old terms.new }
    ensures made { IfOk result (λ ids. MakesCells terms.old terms.new table.now (node.Slice a high low) at ids) }
{
    let first = cell(table, a);
    let id = building::slice(terms, first, high, low)?;
    let ids = single(alloc, id)?;
    Ok(ids)
}

/// `widen(a, width)`.
pub(crate) fn widen(
    alloc: Global,
    terms: &mut Terms,
    table: &[List<Id>],
    at: Id,
    a: Id,
    width: u32,
) -> Result<List<Id>, Memory>
    requires size { length table.now ≡ at }
    requires here { Here terms.old table.now (node.Widen a width) at }
    ensures grows { Grows terms.old terms.new }
    ensures made { IfOk result (λ ids. MakesCells terms.old terms.new table.now (node.Widen a width) at ids) }
{
    let first = cell(table, a);
    let id = building::widen(terms, first, width)?;
    let ids = single(alloc, id)?;
    Ok(ids)
}

/// `join(a, b)`.
pub(crate) fn join(
    alloc: Global,
    terms: &mut Terms,
    table: &[List<Id>],
    at: Id,
    a: Id,
    b: Id,
) -> Result<List<Id>, Memory>
    requires size { length table.now ≡ at }
    requires here { Here terms.old table.now (node.Join a b) at }
    ensures grows { Grows terms.old terms.new }
    ensures made { IfOk result (λ ids. MakesCells terms.old terms.new table.now (node.Join a b) at ids) }
{
    let first = cell(table, a);
    let second = cell(table, b);
    let id = building::join(terms, first, second)?;
    let ids = single(alloc, id)?;
    Ok(ids)
}
