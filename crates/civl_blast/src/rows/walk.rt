// A term without rows that has the same value.
ghost use Rattle.std.specs.Prelude.{◌≡◌, ◌*◌, ◌+◌, ◌^◌, ◌<◌, ◌≤◌, ℕ, false, length, slice_get, IfOk, OnOk, Some, IsTrue};
ghost use Rattle.civl_bits.specs.declared.value.Value.{Value};
ghost use Rattle.civl_tree.specs.declared.expr.Sort.TheVariants as sort;
ghost use Rattle.civl_terms.specs.declared.node.Node.{Node};
ghost use Rattle.civl_terms.specs.Graphs.{sort_at, value_at, Fits};
ghost use Rattle.civl_terms.specs.Weights.{own_weight, term_weight};
ghost use Rattle.civl_terms.specs.Building.{Lengthens};
ghost use Rattle.civl_blast.specs.reach.Reaching.{IsRowless};
ghost use Rattle.civl_blast.specs.reach.Marks.{marked};
ghost use Rattle.civl_blast.specs.rows.Cells.{next_number, NumbersBelow, Reads, HasEntries, AddsCells, ReachesOnly};
ghost use Rattle.civl_blast.specs.inner.rows.Making.{PartsShaped};
ghost use Rattle.civl_blast.specs.inner.rows.Expanding.{Steps};

use crate::reach::marks;
use crate::rows::flat::{Cell, Flat};
use crate::rows::memory::Memory;
use crate::rows::node::step;
use crate::rows::numbers::next_number;
use crate::rows::plain::cell;
use civl_terms::{Id, Terms};
use civl_tree::List;
use std::alloc::Global;

/// The cells of a node where it is marked, and else none.
#[tactic(auto, using(crate::proofs::rows::Growth::lengthening))]
fn visit(
    alloc: Global,
    terms: &mut Terms,
    marks: &[bool],
    table: &[List<Id>],
    cells: &mut Vec<Cell>,
    first: u32,
    at: Id,
) -> Result<List<Id>, Memory>
    requires size { length table.now ≡ at }
    requires within { at < length terms.old }
    requires marks { at < length marks.now }
    requires first { first ≡ next_number terms.old }
    requires room { IsTrue (marked marks.now at) → first + own_weight terms.old at < 2 ^ 32 }
    requires shaped { IsTrue (marked marks.now at) → (n : Node) → slice_get terms.old at ≡ Some n → PartsShaped terms.old table.now n }
    ensures grows { Lengthens terms.old terms.new }
    ensures steps { IfOk result (λ ids. IsTrue (marked marks.now at) → (n : Node) → slice_get terms.old at ≡ Some n
        → Steps terms.old terms.new cells.old.items cells.new.items table.now n at ids) }
    ensures other { OnOk result (marked marks.now at ≡ false → (terms.new ≡ terms.old) × (cells.new.items ≡ cells.old.items)) }
{
    if !marks[at] {
        return Ok(List::new(alloc));
    }
    let _count = terms.len();
    let node = *terms.node(at);
    step(alloc, terms, table, cells, first, at, node)
}

/// A term without rows that has the same value as a boolean term, and the variables that stand for the cells of the
/// variables that are rows.
///
/// The term weighs at most 1,600,000, and the graph's variables have numbers below 2^31. Each node that the term reaches is
/// expanded to its cells, from those of its parts, in the order of the nodes; so deep terms take no more of the stack.
///
/// The graph's new variables are one for each cell of each row variable that the term reaches. Of the others the answered
/// term reaches at most those that the given term reaches.
///
/// # Errors
///
/// For want of memory. The nodes that the graph had stay, also then.
#[tactic(auto, using(crate::proofs::rows::Growth::lengthening))]
pub fn flatten(alloc: Global, terms: &mut Terms, id: Id) -> Result<Flat, Memory>
    requires within { id < length terms.old }
    requires boolean { sort_at terms.old id ≡ Some sort.Bool }
    requires light { term_weight terms.old id ≤ 1600000 }
    requires numbers { NumbersBelow (2 ^ 31) terms.old }
    ensures grows { Lengthens terms.old terms.new }
    ensures within { IfOk result (λ flat. flat.id < length terms.new) }
    ensures boolean { IfOk result (λ flat. sort_at terms.new flat.id ≡ Some sort.Bool) }
    ensures rowless { IfOk result (λ flat. IsRowless terms.new flat.id) }
    ensures entries { IfOk result (λ flat. HasEntries terms.old id flat.cells) }
    ensures variables { IfOk result (λ flat. AddsCells terms.old terms.new flat.cells) }
    ensures reaches { IfOk result (λ flat. ReachesOnly terms.old id terms.new flat.id flat.cells) }
    ensures fits { IfOk result (λ flat. (env : ℕ → Value) → Fits env terms.old → Reads env flat.cells → Fits env terms.new) }
    ensures value { IfOk result (λ flat. (env : ℕ → Value) → Fits env terms.old → Reads env flat.cells
        → value_at env terms.new flat.id ≡ value_at env terms.old id) }
    ensures weight { IfOk result (λ flat. term_weight terms.new flat.id ≤ 2 * term_weight terms.old id) }
{
    let _count = terms.len();
    let first = next_number(terms);
    let marks = marks(alloc, terms, id)?;
    let mut cells: Vec<Cell> = Vec::new(alloc);
    let mut table: Vec<List<Id>> = Vec::new(alloc);
    for at in 0..id + 1 {
        let number = first + cells.len() as u32;
        let ids = visit(
            alloc,
            terms,
            marks.as_slice(),
            table.as_slice(),
            &mut cells,
            number,
            at,
        )?;
        table.push(ids)?;
    }
    let id = cell(table.as_slice(), id);
    Ok(Flat {
        id,
        cells: List::from_vec(cells),
    })
}
