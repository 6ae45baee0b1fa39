// Terms with rows, through their cells.
ghost use Rattle.std.specs.Prelude.{◌≡◌, ◌≤◌, ◌<◌, ◌+◌, ◌*◌, ◌^◌, length, map, Some, IfOk};
ghost use Rattle.civl_tree.specs.declared.expr.Sort.TheVariants as sort;
ghost use Rattle.civl_terms.specs.Graphs.{sort_at};
ghost use Rattle.civl_terms.specs.Weights.{term_weight};
ghost use Rattle.civl_terms.specs.Building.{Lengthens};
ghost use Rattle.civl_blast.specs.rows.Cells.{NumbersBelow};
ghost use Rattle.civl_blast.specs.Standing.{NamesCells, StandsFor, GivesValues, IsSmall};
ghost use Rattle.civl_blast.specs.inner.Renaming.{place_of_cell, CountUp};

use crate::rows::{Cell, Flat, flatten};
use crate::{Blasted, Memory, Place, blast_flat};
use civl_terms::{Id, Terms};
use civl_tree::List;
use std::alloc::Global;

/// The place of the cell that the place's variable stands for, or the place itself. The cells' numbers go up by one, so a cell is found by its number.
fn place_of_cell(cells: &[Cell], place: Place) -> Place
    requires counts { CountUp cells.now }
    ensures { result ≡ place_of_cell cells.now place }
{
    if cells.is_empty() {
        return place;
    }
    let first = cells[0].number;
    if place.variable < first {
        return place;
    }
    let at = (place.variable - first) as usize;
    if at >= cells.len() {
        return place;
    }
    let cell = cells[at];
    Place {
        variable: cell.variable,
        cell: cell.cell,
        first: place.first,
    }
}

fn places_of_cells(alloc: Global, cells: &[Cell], places: &[Place]) -> Result<Vec<Place>, Memory>
    requires counts { CountUp cells.now }
    ensures { IfOk result (λ renamed. renamed.items ≡ map (place_of_cell cells.now) places.now) }
{
    let mut renamed = Vec::new(alloc);
    for place in places {
        renamed.push(place_of_cell(cells, *place))?;
    }
    Ok(renamed)
}

/// Clauses that stand for a boolean term, which may reach rows.
///
/// The term weighs at most 1,600,000, and the graph's variables have numbers below 2^31. It uses at most four variables for each unit of the term's weight, and two more. The graph grows by a term without rows that has the same value, also where memory is wanting.
///
/// Each place is that of a cell of a variable that the term reaches. A cell on which the term doesn't stand once its constants are folded may have no place; then its value doesn't matter to the term (`laws`).
///
/// # Errors
///
/// For want of memory. The nodes that the graph had stay, also then.
pub fn blast(alloc: Global, terms: &mut Terms, id: Id) -> Result<Blasted, Memory>
    requires within { id < length terms.old }
    requires truth { sort_at terms.old id ≡ Some sort.Bool }
    requires light { term_weight terms.old id ≤ 1600000 }
    requires numbers { NumbersBelow (2 ^ 31) terms.old }
    ensures grows { Lengthens terms.old terms.new }
    ensures places { IfOk result (λ blasted. NamesCells terms.old id blasted.cnf.variables blasted.places) }
    ensures stands { IfOk result (λ blasted. StandsFor terms.old id blasted.cnf blasted.places) }
    ensures back { IfOk result (λ blasted. GivesValues terms.old blasted.places) }
    ensures small { IfOk result (λ blasted. IsSmall blasted.cnf (4 * term_weight terms.old id + 2)) }
{
    let _count = terms.len();
    let Flat { id: flat, cells } = flatten(alloc, terms, id)?;
    let _grown = terms.len();
    let Blasted { cnf, places } = blast_flat(alloc, terms, flat)?;
    let renamed = places_of_cells(alloc, cells.as_slice(), places.as_slice())?;
    Ok(Blasted {
        cnf,
        places: List::from_vec(renamed),
    })
}
