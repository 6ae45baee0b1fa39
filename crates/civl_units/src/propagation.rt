// Unit propagation over marks.
ghost use Rattle.std.specs.Prelude.{◌≡◌, ◌≢◌, ◌<◌, ◌≤◌, ◌++◌, ◌∷◌, [], ◌↔◌, length, All, AllPairs, IsTrue, IfOk, OnOk, IfSome, IfNone, None, slice_index_or};
ghost use Rattle.civl_cnf.specs.ClauseSet.{IsBelow, AreBelow};
ghost use Rattle.civl_units.specs.Marks.{NumbersSay, VariableSays, Propagates, EndsBy, AreAssumed};
ghost use Rattle.civl_units.specs.Occurrences.{AreOccurrences};

use crate::Memory;
use crate::marking::mark_forced;
use crate::marks::Marks;
use crate::occurrences::Occurrences;
use civl_cnf::{Clause, Lit};

/// The clause with a number, from 0, where the formula's clauses come first.
pub fn clause_at<'a>(
    formula: &'a [Clause],
    earlier: &'a [Clause],
    number: usize,
) -> Option<&'a Clause>
    ensures within { IfSome result (λ clause. number < length (formula.now ++ earlier.now)) }
    ensures is { IfSome result (λ clause. clause.now ≡ slice_index_or (formula.now ++ earlier.now) number []) }
    ensures past { IfNone result (length (formula.now ++ earlier.now) ≤ number) }
{
    if number < formula.len() {
        return Some(&formula[number]);
    }
    let at = number - formula.len();
    if at < earlier.len() {
        return Some(&earlier[at]);
    }
    None
}

/// Visits the clause with a number, if there is one: whether it is falsified.
fn visit_number(
    marks: &mut Marks,
    formula: &[Clause],
    earlier: &[Clause],
    number: usize,
) -> Result<bool, Memory>
    requires formula { AreBelow (length marks.old.values) formula.now }
    requires earlier { AreBelow (length marks.old.values) earlier.now }
    ensures { IfOk result (λ conflict. NumbersSay marks.old marks.new (formula.now ++ earlier.now) (number ∷ []) conflict) }
{
    match clause_at(formula, earlier, number) {
        None => Ok(false),
        Some(clause) => {
            let falsified = mark_forced(marks, clause.lits())?;
            Ok(falsified)
        }
    }
}

/// Visits the clauses with these numbers, until one is falsified: whether one is.
fn visit_numbers(
    marks: &mut Marks,
    formula: &[Clause],
    earlier: &[Clause],
    numbers: &[usize],
) -> Result<bool, Memory>
    requires formula { AreBelow (length marks.old.values) formula.now }
    requires earlier { AreBelow (length marks.old.values) earlier.now }
    ensures { IfOk result (λ conflict. NumbersSay marks.old marks.new (formula.now ++ earlier.now) numbers.now conflict) }
{
    for number in numbers {
        if visit_number(marks, formula, earlier, *number)? {
            return Ok(true);
        }
    }
    Ok(false)
}

/// Visits the clauses in which a variable has a false literal, until one is falsified: whether one is.
fn visit_variable(
    marks: &mut Marks,
    occurrences: &Occurrences,
    formula: &[Clause],
    earlier: &[Clause],
    variable: u32,
) -> Result<bool, Memory>
    requires formula { AreBelow (length marks.old.values) formula.now }
    requires earlier { AreBelow (length marks.old.values) earlier.now }
    requires size { length occurrences.now.variables ≡ length marks.old.values }
    requires lists { AreOccurrences (formula.now ++ earlier.now) occurrences.now }
    requires below { variable < length marks.old.values }
    ensures { IfOk result (λ conflict. VariableSays marks.old marks.new (formula.now ++ earlier.now) variable conflict) }
{
    match marks.get(variable) {
        None => Ok(false),
        Some(value) => {
            let numbers = occurrences.of(variable, !value);
            let conflict = visit_numbers(marks, formula, earlier, numbers)?;
            Ok(conflict)
        }
    }
}

/// Propagates units from the marks, until a clause is falsified or none forces anything: whether one is falsified. The clauses to look at are those that force a literal by themselves, and then, along the trail, those in which a literal became false.
///
/// # Errors
///
/// For want of memory.
pub fn propagate(
    marks: &mut Marks,
    occurrences: &Occurrences,
    formula: &[Clause],
    earlier: &[Clause],
) -> Result<bool, Memory>
    requires formula { AreBelow (length marks.old.values) formula.now }
    requires earlier { AreBelow (length marks.old.values) earlier.now }
    requires size { length occurrences.now.variables ≡ length marks.old.values }
    requires lists { AreOccurrences (formula.now ++ earlier.now) occurrences.now }
    ensures reached { OnOk result (Propagates marks.old.values marks.new.values (formula.now ++ earlier.now)) }
    ensures ends { IfOk result (λ conflict. EndsBy marks.new.values (formula.now ++ earlier.now) conflict) }
{
    let variables = marks.len();
    if visit_numbers(marks, formula, earlier, occurrences.units())? {
        return Ok(true);
    }
    for at in 0..variables {
        match marks.marked_at(at) {
            None => return Ok(false),
            Some(variable) => {
                if visit_variable(marks, occurrences, formula, earlier, variable)? {
                    return Ok(true);
                }
            }
        }
    }
    Ok(false)
}

/// Marks each literal of a clause as false, unless a variable is unknown or stands twice.
///
/// # Errors
///
/// For want of memory.
pub fn assume(marks: &mut Marks, clause: &[Lit]) -> Result<bool, Memory>
    requires none { All (λ m. m ≡ None) marks.old.values }
    ensures yes { IfOk result (λ all. IsTrue all → AreAssumed marks.new.values clause.now) }
    ensures within { IfOk result (λ all. IsTrue all ↔ (IsBelow (length marks.old.values) clause.now × AllPairs (λ l m. l.variable ≢ m.variable) clause.now)) }
    ensures size { OnOk result (length marks.new.values ≡ length marks.old.values) }
{
    for lit in clause {
        let variable = lit.variable();
        if variable as usize >= marks.len() {
            return Ok(false);
        }
        if marks.get(variable).is_some() {
            return Ok(false);
        }
        marks.set(lit.negate())?;
    }
    Ok(true)
}
