// What clauses give: the inputs' bits are fixed by unit clauses, the clauses are decided, and the result's bits are read.
ghost use Rattle.std.specs.Prelude.{IsTrue};
ghost use Rattle.civl_firing.specs.values.Values.{is_sort};

use crate::operations::{Operand, Operation, applied, two};
use crate::values::{behind, cell_bits, sort_of};
use civl_blast::{Blasted, Place, blast};
use civl_cdcl::{Outcome, solve};
use civl_clause_tests::measuring::{has_sort, measure, variable};
use civl_cnf::{Bits, Clause, Cnf, Lit};
use civl_terms::{Id, Terms};
use civl_tree::{Sort, Two};
use std::alloc::Global;

/// The number of the variable that is the result; those of the operands are their places.
const RESULT: u32 = 9;

/// How many clauses the search may learn.
const BUDGET: u32 = 1000;

/// The variables of the operands.
fn operands_of(
    alloc: Global,
    terms: &mut Terms,
    operands: &[Operand],
    width: u32,
) -> Option<Vec<Id>> {
    let mut ids = Vec::new(alloc);
    let mut number: u32 = 0;
    for operand in operands {
        let sort = sort_of(*operand, width)?;
        let id = variable(terms, number, sort).ok()??;
        ids.push(id).ok()?;
        number = number.saturating_add(1);
    }
    Some(ids)
}

/// The term of an operation over variables.
pub(crate) fn term(
    alloc: Global,
    terms: &mut Terms,
    operation: Operation,
    operands: &[Operand],
    width: u32,
) -> Option<Id> {
    let ids = operands_of(alloc, terms, operands, width)?;
    applied(terms, operation, ids.as_slice())
}

/// The term that another variable is this term.
fn equation(terms: &mut Terms, id: Id, sort: Sort) -> Option<Id>
    requires { IsTrue (is_sort sort) }
{
    let result = variable(terms, RESULT, sort).ok()??;
    two(terms, Two::Eq, id, result)
}

/// The clauses of a boolean term that weighs few.
fn blasted(alloc: Global, terms: &mut Terms, id: Id) -> Option<Blasted> {
    if !has_sort(terms, id, Sort::Bool) {
        return None;
    }
    let weight = measure(terms)?;
    if weight > 1_600_000 {
        return None;
    }
    blast(alloc, terms, id).ok()
}

/// The clauses that another variable is this term, and their sort.
pub(crate) fn clauses_of(alloc: Global, terms: &mut Terms, id: Id) -> Option<(Blasted, Sort)> {
    if id >= terms.len() {
        return None;
    }
    let sort = terms.sort(id);
    let truth = equation(terms, id, sort)?;
    let blasted = blasted(alloc, terms, truth)?;
    Some((blasted, sort))
}

/// The same clauses.
fn copy_of(alloc: Global, cnf: &Cnf) -> Option<Cnf> {
    let mut copy = Cnf::new(alloc, cnf.variables());
    for at in 0..cnf.len() {
        let clause = Clause::from_slice(alloc, cnf.clause(at).lits()).ok()?;
        copy.push(clause).ok()?;
    }
    Some(copy)
}

/// Adds a unit clause, by which a variable has this bit.
fn fix(alloc: Global, cnf: &mut Cnf, variable: u32, bit: bool) -> Option<()> {
    if variable >= cnf.variables() {
        return None;
    }
    let unit = [Lit::new(variable, bit)];
    let clause = Clause::from_slice(alloc, unit.as_slice()).ok()?;
    cnf.push(clause).ok()
}

/// Fixes the bits of a cell of an operand's value with this number.
fn fix_cell(alloc: Global, cnf: &mut Cnf, place: Place, bits: u32, number: u32) -> Option<()> {
    for at in 0..bits {
        let from = place.cell.saturating_mul(bits).saturating_add(at);
        let bit = behind(number, from) % 2 == 1;
        fix(alloc, cnf, place.first.saturating_add(at), bit)?;
    }
    Some(())
}

/// Fixes the bits of the operands' values with these numbers.
fn fix_all(
    alloc: Global,
    cnf: &mut Cnf,
    places: &[Place],
    operands: &[Operand],
    width: u32,
    numbers: &[u32],
) -> Option<()> {
    for place in places {
        if place.variable != RESULT {
            let at = place.variable as usize;
            let sort = sort_of(*operands.get(at)?, width)?;
            fix_cell(alloc, cnf, *place, cell_bits(sort), *numbers.get(at)?)?;
        }
    }
    Some(())
}

/// The number whose bits stand in so many places from the first on, the lowest first, with zeros below them.
fn number_at(bits: &Bits, first: u32, count: u32, zeros: u32) -> u32 {
    let mut number: u32 = 0;
    for at in 0..count {
        let place = first.saturating_add(at);
        if place < bits.len() && bits.get(place) {
            let weight = 1_u32.checked_shl(zeros.saturating_add(at)).unwrap_or(0);
            number = number.saturating_add(weight);
        }
    }
    number
}

/// The number of the result's value.
fn read(bits: &Bits, places: &[Place], sort: Sort) -> u32 {
    let count = cell_bits(sort);
    let mut number: u32 = 0;
    for place in places {
        if place.variable == RESULT {
            let zeros = place.cell.saturating_mul(count);
            number = number.saturating_add(number_at(bits, place.first, count, zeros));
        }
    }
    number
}

/// The number of the result's value that makes the clauses true, if there is one.
fn decided(alloc: Global, cnf: &Cnf, places: &[Place], sort: Sort) -> Option<u32> {
    match solve(alloc, cnf, BUDGET).ok()? {
        Outcome::Sat(bits) => Some(read(&bits, places, sort)),
        _ => None,
    }
}

/// The number of the result's value that the clauses give where the operands' values have these numbers.
pub(crate) fn given(
    alloc: Global,
    clauses: &Blasted,
    sort: Sort,
    operands: &[Operand],
    width: u32,
    numbers: &[u32],
) -> Option<u32> {
    let places = clauses.places.as_slice();
    let mut cnf = copy_of(alloc, &clauses.cnf)?;
    fix_all(alloc, &mut cnf, places, operands, width, numbers)?;
    decided(alloc, &cnf, places, sort)
}
