// The cells of rows, by the operation that makes the row.
ghost use Rattle.std.specs.Prelude.{◌≡◌, ◌*◌, ◌/◌, ◌-◌, ◌^◌, ◌<◌, ◌≤◌, List, [], ◌∷◌, length, replicate, slice_index, IfOk, Some, IsTrue};
ghost use Rattle.civl_bits.specs.Row.{cell_at};
ghost use Rattle.civl_bits.specs.declared.value.Value.TheVariants as value;
ghost use Rattle.civl_tree.specs.declared.expr.Sort.TheVariants as sort;
ghost use Rattle.civl_firing.specs.values.Operators.{pick_value};
ghost use Rattle.civl_firing.specs.values.Weights.{bits_in};
ghost use Rattle.civl_terms.specs.Graphs.{sort_at, value_at};
ghost use Rattle.civl_terms.specs.Building.{Grows};
ghost use Rattle.civl_blast.specs.reach.Reaching.{is_plain};
ghost use Rattle.civl_blast.specs.inner.rows.Making.{HaveSort, Makes, UsesNone, UsesPicks};

use crate::rows::building::{constant, pick};
use crate::rows::memory::Memory;
use civl_bits::{Row, Value, Word};
use civl_terms::{Id, Terms};
use civl_tree::List;
use std::alloc::Global;

/// One node alone.
pub(crate) fn single(alloc: Global, id: Id) -> Result<List<Id>, Memory>
    ensures { IfOk result (λ ids. ids ≡ id ∷ []) }
{
    let mut ids: Vec<Id> = Vec::new(alloc);
    ids.push(id)?;
    Ok(List::from_vec(ids))
}

/// The cells of a constant row.
#[tactic(auto, using(crate::proofs::rows::Growth::growth))]
pub(crate) fn constant_cells(alloc: Global, terms: &mut Terms, row: Row) -> Result<List<Id>, Memory>
    ensures grows { Grows terms.old terms.new }
    ensures made { IfOk result (λ ids. Makes terms.old terms.new UsesNone ids (2 ^ row.index) (Some (sort.Word row.width))
        (λ env c. value.Word (row.width, cell_at row c)) 0) }
{
    let mut ids: Vec<Id> = Vec::new(alloc);
    for at in 0..row.size() {
        let id = constant(terms, Value::Word(row.cell(at)))?;
        ids.push(id)?;
    }
    Ok(List::from_vec(ids))
}

/// One cell, so many times.
pub(crate) fn fill_cells(alloc: Global, index: u32, cell: Id) -> Result<List<Id>, Memory>
    requires { index ≤ 6 }
    ensures { IfOk result (λ ids. ids ≡ replicate (2 ^ index) cell) }
{
    let ids: Vec<Id> = vec![in alloc; cell; 1 << index]?;
    Ok(List::from_vec(ids))
}

/// The cells of `c ? a : b`: a pick for each.
#[tactic(auto, using(crate::proofs::rows::Growth::growth))]
pub(crate) fn pick_cells(
    alloc: Global,
    terms: &mut Terms,
    c: Id,
    a: &[Id],
    b: &[Id],
) -> Result<List<Id>, Memory>
    requires test { sort_at terms.old c ≡ Some sort.Bool }
    requires size { length b.now ≡ length a.now }
    requires plain { IsTrue (is_plain (sort_at terms.old (slice_index a.now 0))) }
    requires a { HaveSort terms.old a.now (sort_at terms.old (slice_index a.now 0)) }
    requires b { HaveSort terms.old b.now (sort_at terms.old (slice_index a.now 0)) }
    ensures grows { Grows terms.old terms.new }
    ensures made { IfOk result (λ ids. Makes terms.old terms.new (UsesPicks c a.now b.now) ids (length a.now)
        (sort_at terms.old (slice_index a.now 0))
        (λ env i. pick_value (value_at env terms.old c) (value_at env terms.old (slice_index a.now i)) (value_at env terms.old (slice_index b.now i)))
        (length a.now * bits_in (sort_at terms.old (slice_index a.now 0)))) }
{
    let mut ids: Vec<Id> = Vec::new(alloc);
    for i in 0..a.len() {
        let first = a[i];
        let second = b[i];
        let id = pick(terms, c, first, second)?;
        ids.push(id)?;
    }
    Ok(List::from_vec(ids))
}
