// The cells of a node, from those of its parts.
ghost use Rattle.std.specs.Prelude.{◌≡◌, ◌+◌, ◌<◌, ◌^◌, false, length, IfOk};
ghost use Rattle.civl_terms.specs.declared.node.Node.TheVariants as node;
ghost use Rattle.civl_terms.specs.Building.{Lengthens, Grows};
ghost use Rattle.civl_terms.specs.Weights.{own_weight};
ghost use Rattle.civl_blast.specs.rows.Cells.{next_number};
ghost use Rattle.civl_blast.specs.inner.rows.Making.{Here, MakesCells};
ghost use Rattle.civl_blast.specs.inner.rows.Expanding.{Steps, is_variable};

use crate::rows::cells::single;
use crate::rows::expand::expand;
use crate::rows::flat::Cell;
use crate::rows::memory::Memory;
use crate::rows::{plain, rowed};
use civl_bits::Value;
use civl_terms::{Id, Node, Terms};
use civl_tree::{List, Sort, Two};
use std::alloc::Global;

/// A constant.
fn constant(
    alloc: Global,
    terms: &mut Terms,
    table: &[List<Id>],
    at: Id,
    value: Value,
) -> Result<List<Id>, Memory>
    requires here { Here terms.old table.now (node.Constant value) at }
    ensures grows { Grows terms.old terms.new }
    ensures made { IfOk result (λ ids. MakesCells terms.old terms.new table.now (node.Constant value) at ids) }
{
    match value {
        Value::Row(row) => {
            let ids = rowed::constant(alloc, terms, at, row)?;
            Ok(ids)
        }
        Value::Bool(_) => {
            let ids = single(alloc, at)?;
            Ok(ids)
        }
        Value::Word(_) => {
            let ids = single(alloc, at)?;
            Ok(ids)
        }
    }
}

/// An operation with two operands.
fn two(
    alloc: Global,
    terms: &mut Terms,
    table: &[List<Id>],
    at: Id,
    op: Two,
    a: Id,
    b: Id,
) -> Result<List<Id>, Memory>
    requires size { length table.now ≡ at }
    requires here { Here terms.old table.now (node.Two op a b) at }
    ensures grows { Grows terms.old terms.new }
    ensures made { IfOk result (λ ids. MakesCells terms.old terms.new table.now (node.Two op a b) at ids) }
{
    match op {
        Two::Eq => rowed::compare(alloc, terms, table, at, Two::Eq, Two::And, a, b),
        Two::Ne => rowed::compare(alloc, terms, table, at, Two::Ne, Two::Or, a, b),
        _ => plain::two(alloc, terms, table, at, op, a, b),
    }
}

/// The cells of a node that is no variable, from those of its parts.
fn operation(
    alloc: Global,
    terms: &mut Terms,
    table: &[List<Id>],
    at: Id,
    node: Node,
) -> Result<List<Id>, Memory>
    requires size { length table.now ≡ at }
    requires here { Here terms.old table.now node at }
    requires other { is_variable node ≡ false }
    ensures grows { Grows terms.old terms.new }
    ensures made { IfOk result (λ ids. MakesCells terms.old terms.new table.now node at ids) }
{
    match node {
        Node::Constant(value) => constant(alloc, terms, table, at, value),
        Node::One(op, a) => plain::one(alloc, terms, table, at, op, a),
        Node::Two(op, a, b) => two(alloc, terms, table, at, op, a, b),
        Node::Pick(c, a, b) => rowed::pick(alloc, terms, table, at, c, a, b),
        Node::Get(row, index) => rowed::get(alloc, terms, table, at, row, index),
        Node::Set(row, index, cell) => rowed::set(alloc, terms, table, at, row, index, cell),
        Node::Fill(index, cell) => rowed::fill(alloc, terms, table, at, index, cell),
        Node::Slice(a, high, low) => plain::slice(alloc, terms, table, at, a, high, low),
        Node::Widen(a, width) => plain::widen(alloc, terms, table, at, a, width),
        Node::Join(a, b) => plain::join(alloc, terms, table, at, a, b),
        Node::Variable(_, _) => single(alloc, at),
    }
}

/// A variable.
#[tactic(auto, using(crate::proofs::rows::Growth::lengthening))]
fn variable(
    alloc: Global,
    terms: &mut Terms,
    table: &[List<Id>],
    cells: &mut Vec<Cell>,
    first: u32,
    at: Id,
    number: u32,
    sort: Sort,
) -> Result<List<Id>, Memory>
    requires first { first ≡ next_number terms.old }
    requires room { first + own_weight terms.old at < 2 ^ 32 }
    requires here { Here terms.old table.now (node.Variable number sort) at }
    ensures grows { Lengthens terms.old terms.new }
    ensures made { IfOk result (λ ids. Steps terms.old terms.new cells.old.items cells.new.items table.now (node.Variable number sort) at ids) }
{
    match sort {
        Sort::Row(index, width) => {
            let ids = expand(alloc, terms, cells, first, number, index, width)?;
            Ok(ids)
        }
        Sort::Bool => {
            let ids = single(alloc, at)?;
            Ok(ids)
        }
        Sort::Word(_) => {
            let ids = single(alloc, at)?;
            Ok(ids)
        }
    }
}

/// The cells of a node, from those of its parts; a variable that is a row is expanded, with numbers from `first` on, the
/// least number above all.
#[tactic(auto, using(crate::proofs::rows::Growth::lengthening))]
pub(crate) fn step(
    alloc: Global,
    terms: &mut Terms,
    table: &[List<Id>],
    cells: &mut Vec<Cell>,
    first: u32,
    at: Id,
    node: Node,
) -> Result<List<Id>, Memory>
    requires size { length table.now ≡ at }
    requires first { first ≡ next_number terms.old }
    requires room { first + own_weight terms.old at < 2 ^ 32 }
    requires here { Here terms.old table.now node at }
    ensures grows { Lengthens terms.old terms.new }
    ensures made { IfOk result (λ ids. Steps terms.old terms.new cells.old.items cells.new.items table.now node at ids) }
{
    match node {
        Node::Variable(number, sort) => {
            let ids = variable(alloc, terms, table, cells, first, at, number, sort)?;
            Ok(ids)
        }
        _ => {
            let ids = operation(alloc, terms, table, at, node)?;
            Ok(ids)
        }
    }
}
