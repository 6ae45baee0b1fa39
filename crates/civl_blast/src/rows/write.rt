// The cells of a row with another cell at an index.
ghost use Rattle.std.specs.Prelude.{◌≡◌, ◌+◌, ◌*◌, ◌^◌, length, slice_index, IfOk, Some, IsTrue};
ghost use Rattle.civl_bits.specs.Word.{IsWord};
ghost use Rattle.civl_tree.specs.declared.expr.Sort.TheVariants as sort;
ghost use Rattle.civl_firing.specs.values.Weights.{bits_in};
ghost use Rattle.civl_terms.specs.Graphs.{sort_at, value_at};
ghost use Rattle.civl_terms.specs.Building.{Grows};
ghost use Rattle.civl_blast.specs.reach.Reaching.{is_plain};
ghost use Rattle.civl_blast.specs.inner.rows.Making.{HaveSort, Makes, MakesOne, UsesThree, UsesWrite, written};

use crate::rows::building::{constant, pick, two};
use crate::rows::memory::Memory;
use civl_bits::{Value, Word};
use civl_terms::{Id, Terms};
use civl_tree::{List, Two};
use std::alloc::Global;

/// One cell: the new one where the index is this number, else the old one.
#[tactic(auto, using(crate::proofs::rows::Growth::growth))]
fn write_cell(terms: &mut Terms, number: Word, at: Id, cell: Id, old: Id) -> Result<Id, Memory>
    requires at { sort_at terms.old at ≡ Some (sort.Word number.0) }
    requires plain { IsTrue (is_plain (sort_at terms.old cell)) }
    requires same { sort_at terms.old old ≡ sort_at terms.old cell }
    ensures grows { Grows terms.old terms.new }
    ensures made { IfOk result (λ id. MakesOne terms.old terms.new (UsesThree at cell old) id (sort_at terms.old cell)
        (λ env. written number.0 (value_at env terms.old at) (value_at env terms.old cell) number.1 (value_at env terms.old old))
        (number.0 + bits_in (sort_at terms.old cell))) }
{
    let index = constant(terms, Value::Word(number))?;
    let same = two(terms, Two::Eq, index, at)?;
    let id = pick(terms, same, cell, old)?;
    Ok(id)
}

/// The cells of `set(row, at, cell)`, for indices of `index` bits.
#[tactic(auto, using(crate::proofs::rows::Growth::growth))]
pub(crate) fn write_cells(
    alloc: Global,
    terms: &mut Terms,
    index: u32,
    row: &[Id],
    at: Id,
    cell: Id,
) -> Result<List<Id>, Memory>
    requires word { IsWord index 0 }
    requires size { length row.now ≡ 2 ^ index }
    requires at { sort_at terms.old at ≡ Some (sort.Word index) }
    requires plain { IsTrue (is_plain (sort_at terms.old cell)) }
    requires row { HaveSort terms.old row.now (sort_at terms.old cell) }
    ensures grows { Grows terms.old terms.new }
    ensures made { IfOk result (λ ids. Makes terms.old terms.new (UsesWrite row.now at cell) ids (2 ^ index) (sort_at terms.old cell)
        (λ env c. written index (value_at env terms.old at) (value_at env terms.old cell) c (value_at env terms.old (slice_index row.now c)))
        (2 ^ index * (index + bits_in (sort_at terms.old cell)))) }
{
    let mut ids: Vec<Id> = Vec::new(alloc);
    for i in 0..row.len() {
        let old = row[i];
        let number = Word::of(index, i as u32);
        let id = write_cell(terms, number, at, cell, old)?;
        ids.push(id)?;
    }
    Ok(List::from_vec(ids))
}
