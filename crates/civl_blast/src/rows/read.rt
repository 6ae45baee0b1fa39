// The cell of a row at an index.
ghost use Rattle.std.specs.Prelude.{◌≡◌, ◌+◌, ◌-◌, ◌*◌, ◌/◌, ◌^◌, ◌≤◌, length, slice_index, IfOk, Some, IsTrue};
ghost use Rattle.civl_tree.specs.declared.expr.Sort.TheVariants as sort;
ghost use Rattle.civl_tree.specs.rules.Sorts.{slice_sort};
ghost use Rattle.civl_firing.specs.values.Operators.{pick_value};
ghost use Rattle.civl_firing.specs.values.Weights.{bits_in};
ghost use Rattle.civl_terms.specs.Graphs.{sort_at, value_at};
ghost use Rattle.civl_terms.specs.Building.{Grows};
ghost use Rattle.civl_blast.specs.reach.Reaching.{is_plain};
ghost use Rattle.civl_blast.specs.inner.rows.Making.{HaveSort, Makes, MakesOne, UsesOne, UsesRead, bit_value, chosen};

use crate::rows::building::{constant, pick, slice, two};
use crate::rows::memory::Memory;
use civl_bits::{Value, Word};
use civl_terms::{Id, Terms};
use civl_tree::Two;
use std::alloc::Global;

/// Whether a bit of a word is 1.
#[tactic(auto, using(crate::proofs::rows::Growth::growth))]
fn bit_of(terms: &mut Terms, at: Id, bit: u32) -> Result<Id, Memory>
    requires { IsTrue (is_plain (slice_sort (sort_at terms.old at) bit bit)) }
    ensures grows { Grows terms.old terms.new }
    ensures made { IfOk result (λ id. MakesOne terms.old terms.new (UsesOne at) id (Some sort.Bool) (λ env. bit_value (value_at env terms.old at) bit) 2) }
{
    let part = slice(terms, at, bit, bit)?;
    let one = constant(terms, Value::Word(Word::of(1, 1)))?;
    let id = two(terms, Two::Eq, part, one)?;
    Ok(id)
}

/// The cells at odd places where a term is true, else those at even places.
#[tactic(auto, using(crate::proofs::rows::Growth::growth))]
fn halve(alloc: Global, terms: &mut Terms, test: Id, cells: &[Id]) -> Result<Vec<Id>, Memory>
    requires test { sort_at terms.old test ≡ Some sort.Bool }
    requires plain { IsTrue (is_plain (sort_at terms.old (slice_index cells.now 0))) }
    requires sorted { HaveSort terms.old cells.now (sort_at terms.old (slice_index cells.now 0)) }
    ensures grows { Grows terms.old terms.new }
    ensures made { IfOk result (λ ids. Makes terms.old terms.new (UsesRead cells.now test) ids.items (length cells.now / 2)
        (sort_at terms.old (slice_index cells.now 0))
        (λ env c. pick_value (value_at env terms.old test) (value_at env terms.old (slice_index cells.now (2 * c + 1))) (value_at env terms.old (slice_index cells.now (2 * c))))
        (length cells.now / 2 * bits_in (sort_at terms.old (slice_index cells.now 0)))) }
{
    let mut ids: Vec<Id> = Vec::new(alloc);
    for i in 0..cells.len() / 2 {
        let odd = cells[2 * i + 1];
        let even = cells[2 * i];
        let id = pick(terms, test, odd, even)?;
        ids.push(id)?;
    }
    Ok(ids)
}

/// One level of the choice: by one bit of the index.
#[tactic(auto, using(crate::proofs::rows::Growth::growth))]
fn choose(
    alloc: Global,
    terms: &mut Terms,
    cells: &[Id],
    at: Id,
    bit: u32,
) -> Result<Vec<Id>, Memory>
    requires at { IsTrue (is_plain (slice_sort (sort_at terms.old at) bit bit)) }
    requires plain { IsTrue (is_plain (sort_at terms.old (slice_index cells.now 0))) }
    requires sorted { HaveSort terms.old cells.now (sort_at terms.old (slice_index cells.now 0)) }
    requires some { 2 ≤ length cells.now }
    ensures grows { Grows terms.old terms.new }
    ensures made { IfOk result (λ ids. Makes terms.old terms.new (UsesRead cells.now at) ids.items (length cells.now / 2)
        (sort_at terms.old (slice_index cells.now 0))
        (λ env c. pick_value (bit_value (value_at env terms.old at) bit) (value_at env terms.old (slice_index cells.now (2 * c + 1))) (value_at env terms.old (slice_index cells.now (2 * c))))
        (2 + length cells.now / 2 * bits_in (sort_at terms.old (slice_index cells.now 0)))) }
{
    let test = bit_of(terms, at, bit)?;
    let ids = halve(alloc, terms, test, cells)?;
    Ok(ids)
}

/// `get(row, at)`, for indices of `index` bits: a binary tree of choices, by the lowest bit first.
#[tactic(auto, using(crate::proofs::rows::Growth::growth))]
pub(crate) fn read_cell(
    alloc: Global,
    terms: &mut Terms,
    index: u32,
    cells: &[Id],
    at: Id,
) -> Result<Id, Memory>
    requires index { 1 ≤ index }
    requires size { length cells.now ≡ 2 ^ index }
    requires at { sort_at terms.old at ≡ Some (sort.Word index) }
    requires plain { IsTrue (is_plain (sort_at terms.old (slice_index cells.now 0))) }
    requires sorted { HaveSort terms.old cells.now (sort_at terms.old (slice_index cells.now 0)) }
    ensures grows { Grows terms.old terms.new }
    ensures made { IfOk result (λ id. MakesOne terms.old terms.new (UsesRead cells.now at) id
        (sort_at terms.old (slice_index cells.now 0))
        (λ env. chosen (bit_value (value_at env terms.old at)) (λ c. value_at env terms.old (slice_index cells.now c)) index 0)
        (2 * index + (2 ^ index - 1) * bits_in (sort_at terms.old (slice_index cells.now 0)))) }
{
    let mut left = choose(alloc, terms, cells, at, 0)?;
    for bit in 1..index {
        left = choose(alloc, terms, left.as_slice(), at, bit)?;
    }
    Ok(left[0])
}
