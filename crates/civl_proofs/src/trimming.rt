// Logs of which nothing can be left out.
ghost use Rattle.std.specs.Prelude.{◌≡◌, ◌↔◌, ◌++◌, ◌<◌, [], length, take, slice_index_or, IfOk, OnOk, IsTrue};
ghost use Rattle.std.specs.List.{remove};
ghost use Rattle.civl_cnf.specs.ClauseSet.{AreBelow};
ghost use Rattle.civl_units.specs.Occurrences.{AreOccurrences};
ghost use Rattle.civl_rup.specs.Rup.{HasRup, HaveRup, Refutes};
ghost use Rattle.civl_proofs.specs.Lean.{IsLean, IsSublist};

use crate::Memory;
use civl_cnf::{Clause, Cnf, Lit, Log};
use civl_rup::has_empty;
use civl_units::{Marks, Occurrences, assume, occurrences_of, propagate};
use std::alloc::Global;

/// Whether a clause has reverse unit propagation from the formula and the clauses before it. There is a mark for each variable, and what the marks were doesn't matter; the occurrence lists are those of both lists of clauses.
fn has_rup(
    marks: &mut Marks,
    occurrences: &Occurrences,
    formula: &[Clause],
    earlier: &[Clause],
    clause: &[Lit],
) -> Result<bool, Memory>
    requires formula { AreBelow (length marks.old.values) formula.now }
    requires earlier { AreBelow (length marks.old.values) earlier.now }
    requires size { length occurrences.now.variables ≡ length marks.old.values }
    requires lists { AreOccurrences (formula.now ++ earlier.now) occurrences.now }
    ensures exact { IfOk result (λ yes. IsTrue yes ↔ HasRup (length marks.old.values) (formula.now ++ earlier.now) clause.now) }
    ensures size { OnOk result (length marks.new.values ≡ length marks.old.values) }
{
    marks.clear();
    if !assume(marks, clause)? {
        return Ok(false);
    }
    let conflict = propagate(marks, occurrences, formula, earlier)?;
    Ok(conflict)
}

/// Whether the clause at a place of a log has reverse unit propagation from the clause set and the clauses before it, as those before `from` are known to have. The occurrence lists are those of the clause set and the clauses before the place.
fn stands(
    marks: &mut Marks,
    occurrences: &Occurrences,
    cnf: &Cnf,
    log: &Log,
    at: usize,
    from: usize,
) -> Result<bool, Memory>
    requires marks { length marks.old.values ≡ cnf.now.variables }
    requires size { length occurrences.now.variables ≡ cnf.now.variables }
    requires lists { AreOccurrences (cnf.now.clauses ++ take at log.now) occurrences.now }
    requires within { at < length log.now }
    requires before { HaveRup cnf.now log.now at }
    requires known { HaveRup cnf.now log.now from }
    ensures exact { IfOk result (λ yes. IsTrue yes ↔ HasRup cnf.now.variables (cnf.now.clauses ++ take at log.now) (slice_index_or log.now at [])) }
    ensures size { OnOk result (length marks.new.values ≡ length marks.old.values) }
{
    if at < from {
        return Ok(true);
    }
    let clauses = log.clauses();
    let clause = clauses[at].lits();
    let yes = has_rup(marks, occurrences, cnf.clauses(), &clauses[..at], clause)?;
    Ok(yes)
}

/// Whether each clause of the log has reverse unit propagation from the clause set and the clauses before it, as those before `from` are known to have. The occurrence lists are those of the clause set, and grow.
fn have_rup(
    marks: &mut Marks,
    occurrences: &mut Occurrences,
    cnf: &Cnf,
    log: &Log,
    from: usize,
) -> Result<bool, Memory>
    requires marks { length marks.old.values ≡ cnf.now.variables }
    requires size { length occurrences.old.variables ≡ cnf.now.variables }
    requires lists { AreOccurrences cnf.now.clauses occurrences.old }
    requires known { HaveRup cnf.now log.now from }
    ensures exact { IfOk result (λ yes. IsTrue yes ↔ HaveRup cnf.now log.now (length log.now)) }
    ensures size { OnOk result (length marks.new.values ≡ length marks.old.values) }
{
    let formula = cnf.clauses();
    let clauses = log.clauses();
    for at in 0..clauses.len() {
        if !stands(marks, occurrences, cnf, log, at, from)? {
            return Ok(false);
        }
        occurrences.add(clauses[at].lits(), formula.len() + at)?;
    }
    Ok(true)
}

/// Whether a log refutes the clause set, where its clauses before a place are known to have reverse unit propagation.
fn refutes(
    alloc: Global,
    marks: &mut Marks,
    cnf: &Cnf,
    log: &Log,
    from: usize,
) -> Result<bool, Memory>
    requires marks { length marks.old.values ≡ cnf.now.variables }
    requires known { HaveRup cnf.now log.now from }
    ensures exact { IfOk result (λ yes. IsTrue yes ↔ Refutes cnf.now log.now) }
    ensures size { OnOk result (length marks.new.values ≡ length marks.old.values) }
{
    if !has_empty(log.clauses()) {
        return Ok(false);
    }
    let mut occurrences = occurrences_of(alloc, cnf)?;
    let all = have_rup(marks, &mut occurrences, cnf, log, from)?;
    Ok(all)
}

/// Adds copies of clauses at the end of a log.
fn copy_all(alloc: Global, copy: &mut Log, clauses: &[Clause]) -> Result<(), Memory>
    ensures { OnOk result (copy.new ≡ copy.old ++ clauses.now) }
{
    for clause in clauses {
        copy.push(Clause::from_slice(alloc, clause.lits())?)?;
    }
    Ok(())
}

/// The log without the clause at a place.
fn without(alloc: Global, log: &Log, place: usize) -> Result<Log, Memory>
    requires { place < length log.now }
    ensures { IfOk result (λ shorter. shorter ≡ remove log.now place) }
{
    let clauses = log.clauses();
    let mut copy = Log::new(alloc);
    copy_all(alloc, &mut copy, &clauses[..place])?;
    copy_all(alloc, &mut copy, &clauses[place + 1..])?;
    Ok(copy)
}

/// A lean log out of the clauses of a log that refutes the clause set: it has some of them, in the same order, and without any one of its clauses it doesn't refute. From the last clause to the first each is left out if the others still refute.
///
/// # Errors
///
/// For want of memory.
pub fn trim(alloc: Global, cnf: &Cnf, log: &Log) -> Result<Log, Memory>
    requires { Refutes cnf.now log.now }
    ensures sublist { IfOk result (λ short. IsSublist short log.now) }
    ensures lean { IfOk result (IsLean cnf.now) }
{
    let mut marks = Marks::new(alloc, cnf.variables())?;
    let mut short = Log::new(alloc);
    copy_all(alloc, &mut short, log.clauses())?;
    let mut at = short.len();
    'places: while at > 0 {
        at -= 1;
        let shorter = without(alloc, &short, at)?;
        if refutes(alloc, &mut marks, cnf, &shorter, at)? {
            short = shorter;
        }
    }
    Ok(short)
}
