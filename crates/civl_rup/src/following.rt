// Clauses of a log that follow by their hints.
ghost use Rattle.std.specs.Prelude.{◌≡◌, ◌++◌, ◌≤◌, List, length, IsTrue, IfOk, OnOk};
ghost use Rattle.civl_cnf.specs.Literal.{Literal};
ghost use Rattle.civl_cnf.specs.ClauseSet.{IsBelow, AreBelow};
ghost use Rattle.civl_rup.specs.Rup.{HasRup, HaveRup};
ghost use Rattle.civl_rup.specs.inner.Following.{IsLoose, IsForced, IsRoot, Heeds, HintSays, AssumptionSays, MeetingSays};

use crate::Memory;
use crate::taking::is_fit;
use civl_cnf::{Clause, Cnf, Lit, Log};
use civl_propagation::Trail;
use civl_units::{Marks, Rule, clause_at, rule_of};
use std::alloc::Global;

/// Makes true what a clause forces: whether it is falsified.
fn heed(trail: &mut Trail, clause: &[Lit]) -> Result<bool, Memory>
    requires loose { IsLoose trail.old }
    requires below { IsBelow (length trail.old.marks) clause.now }
    ensures loose { OnOk result (IsLoose trail.new) }
    ensures size { OnOk result (length trail.new.marks ≡ length trail.old.marks) }
    ensures says { IfOk result (λ falsified. HintSays trail.old trail.new clause.now falsified) }
{
    match rule_of(trail.marks(), clause) {
        Rule::Falsified => Ok(true),
        Rule::Quiet => Ok(false),
        Rule::Forces(lit) => {
            trail.decide(lit)?;
            Ok(false)
        }
    }
}

/// Makes true what the clause with a number forces, if there is one: whether it is falsified.
fn heed_number(
    trail: &mut Trail,
    formula: &[Clause],
    earlier: &[Clause],
    number: usize,
) -> Result<bool, Memory>
    requires loose { IsLoose trail.old }
    requires formula { AreBelow (length trail.old.marks) formula.now }
    requires earlier { AreBelow (length trail.old.marks) earlier.now }
    ensures loose { OnOk result (IsLoose trail.new) }
    ensures size { OnOk result (length trail.new.marks ≡ length trail.old.marks) }
    ensures says { IfOk result (λ falsified. Heeds trail.old trail.new (formula.now ++ earlier.now) falsified) }
{
    match clause_at(formula, earlier, number) {
        None => Ok(false),
        Some(clause) => {
            let falsified = heed(trail, clause.lits())?;
            Ok(falsified)
        }
    }
}

/// Makes true what the clauses with these numbers force, one after the other, until one is falsified: whether one is.
fn heed_all(
    trail: &mut Trail,
    formula: &[Clause],
    earlier: &[Clause],
    hints: &[u32],
) -> Result<bool, Memory>
    requires loose { IsLoose trail.old }
    requires formula { AreBelow (length trail.old.marks) formula.now }
    requires earlier { AreBelow (length trail.old.marks) earlier.now }
    ensures loose { OnOk result (IsLoose trail.new) }
    ensures size { OnOk result (length trail.new.marks ≡ length trail.old.marks) }
    ensures says { IfOk result (λ falsified. Heeds trail.old trail.new (formula.now ++ earlier.now) falsified) }
{
    for hint in hints {
        if heed_number(trail, formula, earlier, *hint as usize)? {
            return Ok(true);
        }
    }
    Ok(false)
}

/// Makes literals false whose variables have no value: whether all are false now.
fn make_all_false(trail: &mut Trail, lits: &[Lit]) -> Result<bool, Memory>
    requires loose { IsLoose trail.old }
    requires below { IsBelow (length trail.old.marks) lits.now }
    ensures loose { OnOk result (IsLoose trail.new) }
    ensures size { OnOk result (length trail.new.marks ≡ length trail.old.marks) }
    ensures says { OnOk result (AssumptionSays trail.old trail.new lits.now) }
{
    for lit in lits {
        match trail.marks()[lit.variable() as usize] {
            Some(_) => return Ok(false),
            None => trail.decide(lit.negate())?,
        }
    }
    Ok(true)
}

/// Makes the literals of a clause false, and then true what the hinted clauses force: whether one is falsified.
fn meet(
    trail: &mut Trail,
    formula: &[Clause],
    earlier: &[Clause],
    clause: &[Lit],
    hints: &[u32],
) -> Result<bool, Memory>
    requires loose { IsLoose trail.old }
    requires formula { AreBelow (length trail.old.marks) formula.now }
    requires earlier { AreBelow (length trail.old.marks) earlier.now }
    requires below { IsBelow (length trail.old.marks) clause.now }
    ensures loose { OnOk result (IsLoose trail.new) }
    ensures size { OnOk result (length trail.new.marks ≡ length trail.old.marks) }
    ensures says { IfOk result (λ falsified. MeetingSays trail.old trail.new (formula.now ++ earlier.now) clause.now falsified) }
{
    if !make_all_false(trail, clause)? {
        return Ok(false);
    }
    let falsified = heed_all(trail, formula, earlier, hints)?;
    Ok(falsified)
}

/// Takes levels back, if there are more.
fn back_to(trail: &mut Trail, levels: usize)
    requires loose { IsLoose trail.old }
    requires levels { levels ≤ length trail.old.starts }
    ensures loose { IsLoose trail.new }
    ensures size { length trail.new.marks ≡ length trail.old.marks }
    ensures back { (clauses : List (List Literal)) → IsForced trail.old levels clauses → IsRoot trail.new clauses }
{
    if levels < trail.levels() {
        trail.cut(levels);
    }
}

/// Whether a clause has reverse unit propagation from the clauses of a set and those before it in a log, as its hints show: they are looked at twice, before its literals are made false, for what holds by itself and stays, and after that. A clause that has it may be passed over, where its hints don't suffice.
fn follow(
    trail: &mut Trail,
    marks: &mut Marks,
    formula: &[Clause],
    earlier: &[Clause],
    clause: &[Lit],
    hints: &[u32],
) -> Result<bool, Memory>
    requires loose { IsLoose trail.old }
    requires root { IsRoot trail.old (formula.now ++ earlier.now) }
    requires marks { length marks.old.values ≡ length trail.old.marks }
    requires formula { AreBelow (length trail.old.marks) formula.now }
    requires earlier { AreBelow (length trail.old.marks) earlier.now }
    ensures loose { OnOk result (IsLoose trail.new) }
    ensures size { OnOk result (length trail.new.marks ≡ length trail.old.marks) }
    ensures marks { OnOk result (length marks.new.values ≡ length trail.old.marks) }
    ensures root { OnOk result (IsRoot trail.new (formula.now ++ earlier.now)) }
    ensures rup { IfOk result (λ follows. IsTrue follows → HasRup (length trail.old.marks) (formula.now ++ earlier.now) clause.now) }
{
    if !is_fit(marks, clause)? {
        return Ok(false);
    }
    if heed_all(trail, formula, earlier, hints)? {
        return Ok(true);
    }
    let levels = trail.levels();
    let falsified = meet(trail, formula, earlier, clause, hints)?;
    back_to(trail, levels);
    Ok(falsified)
}

/// How many clauses at the front of a log have reverse unit propagation, as their hints show.
pub fn followed(alloc: Global, cnf: &Cnf, log: &Log) -> Result<usize, Memory>
    ensures within { IfOk result (λ count. count ≤ length log.now) }
    ensures rup { IfOk result (λ count. HaveRup cnf.now log.now count) }
{
    let mut trail = Trail::new(alloc, cnf.variables())?;
    let mut marks = Marks::new(alloc, cnf.variables())?;
    let clauses = log.clauses();
    for at in 0..clauses.len() {
        let follows = follow(
            &mut trail,
            &mut marks,
            cnf.clauses(),
            &clauses[..at],
            clauses[at].lits(),
            log.hints(at),
        )?;
        if !follows {
            return Ok(at);
        }
    }
    Ok(clauses.len())
}
