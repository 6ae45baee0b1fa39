// The variables that stand for the cells of a row.
ghost use Rattle.std.specs.Prelude.{◌≡◌, ◌+◌, ◌^◌, ◌<◌, ◌≤◌, IfOk, IsTrue};
ghost use Rattle.civl_tree.specs.declared.expr.Sort.TheVariants as sort;
ghost use Rattle.civl_firing.specs.values.Values.{is_sort};
ghost use Rattle.civl_terms.specs.Building.{Lengthens};
ghost use Rattle.civl_blast.specs.rows.Cells.{next_number};
ghost use Rattle.civl_blast.specs.inner.rows.Expanding.{Expands};

use crate::rows::flat::Cell;
use crate::rows::memory::Memory;
use civl_terms::{Id, Terms};
use civl_tree::{List, Sort};
use std::alloc::Global;

/// One variable for each cell of a variable that is a row. Their numbers go up from `first`, the least number above all.
#[tactic(auto, using(crate::proofs::rows::Growth::lengthening))]
pub(crate) fn expand(
    alloc: Global,
    terms: &mut Terms,
    cells: &mut Vec<Cell>,
    first: u32,
    variable: u32,
    index: u32,
    width: u32,
) -> Result<List<Id>, Memory>
    requires first { first ≡ next_number terms.old }
    requires room { first + 2 ^ index < 2 ^ 32 }
    requires index { index ≤ 6 }
    requires width { IsTrue (is_sort (sort.Word width)) }
    ensures grows { Lengthens terms.old terms.new }
    ensures made { IfOk result (λ ids. Expands terms.old terms.new cells.old.items cells.new.items variable index width (2 ^ index) ids) }
{
    let mut ids: Vec<Id> = Vec::new(alloc);
    for cell in 0..1 << index {
        let number = first + cell;
        let id = terms.variable(number, Sort::Word(width))?;
        ids.push(id)?;
        cells.push(Cell {
            variable,
            cell,
            number,
        })?;
    }
    Ok(List::from_vec(ids))
}
