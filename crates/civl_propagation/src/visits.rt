// Visits of clauses by their watched literals.
ghost use Rattle.std.specs.Prelude.{◌≡◌, ◌<◌, ℕ, length, IfOk};
ghost use Rattle.civl_cnf.specs.ClauseSet.{IsBelow, AreBelow};
ghost use Rattle.civl_units.specs.Propagation.{Holds};
ghost use Rattle.civl_units.specs.Marks.{marked};
ghost use Rattle.civl_propagation.specs.Trail.{before};
ghost use Rattle.civl_propagation.specs.Watches.{watchers, AllKeepUp, IsHeld, IsVisiting, VisitSays, ReplacementSays, ForceSays, StepSays};

use crate::Memory;
use crate::clauses::Clauses;
use crate::propagation::Ended;
use crate::trail::Trail;
use crate::watches::{Pair, Visit, Watches};
use civl_cnf::Lit;

/// Whether the literal is true.
fn is_true(marks: &[Option<bool>], lit: Lit) -> bool
    requires { lit.variable < length marks.now }
    ensures { result ≡ marked marks.now lit.variable lit.positive }
{
    match marks[lit.variable() as usize] {
        None => false,
        Some(value) => value == lit.positive(),
    }
}

/// A literal of the clause that isn't false, other than this one.
fn replacement(marks: &[Option<bool>], clause: &[Lit], other: Lit) -> Option<Lit>
    requires { IsBelow (length marks.now) clause.now }
    ensures { ReplacementSays marks.now clause.now other result }
{
    for lit in clause {
        if *lit != other && !is_true(marks, lit.negate()) {
            return Some(*lit);
        }
    }
    None
}

/// Makes the only literal true that a clause leaves, if it has no value.
fn force(trail: &mut Trail, lit: Lit, number: usize) -> Result<Visit, Memory>
    requires marks { lit.variable < length trail.old.marks }
    requires places { lit.variable < length trail.old.places }
    requires untrue { Holds (marked trail.old.marks) lit → ⊥ }
    ensures { IfOk result (λ did. ForceSays trail.old trail.new lit number did) }
{
    match trail.marks()[lit.variable() as usize] {
        Some(_) => Ok(Visit::Falsified(number)),
        None => {
            trail.push(lit, Some(number))?;
            Ok(Visit::Stays)
        }
    }
}

/// Visits the clause at a place of the list of a literal that became false. If its other watched literal is true, its watches stay. Else another one that isn't false is watched instead, or the other is forced.
fn visit(
    trail: &mut Trail,
    watches: &mut Watches,
    clauses: &Clauses,
    falsified: Lit,
    at: usize,
) -> Result<Visit, Memory>
    requires below { AreBelow (length trail.old.marks) clauses.now }
    requires visiting { (step : ℕ) × IsVisiting trail.old clauses.now watches.old falsified step at }
    requires known { falsified.variable < length trail.old.marks }
    requires place { at < length (watchers watches.old.lists falsified) }
    ensures { IfOk result (λ did. (step : ℕ) → IsVisiting trail.old clauses.now watches.old falsified step at → VisitSays trail.old watches.old trail.new watches.new clauses.now falsified step at did) }
{
    let number = watches.at(falsified, at);
    match watches.other(number, falsified) {
        None => Ok(Visit::Stays),
        Some(other) => {
            if is_true(trail.marks(), other) {
                return Ok(Visit::Stays);
            }
            match replacement(trail.marks(), clauses.lits(number as usize), other) {
                Some(next) => {
                    let pair = Pair {
                        first: next,
                        second: other,
                    };
                    watches.rewatch(falsified, at, pair)?;
                    Ok(Visit::Moved)
                }
                None => {
                    let did = force(trail, other, number as usize)?;
                    Ok(did)
                }
            }
        }
    }
}

/// Visits the clauses that watch the opposite of a step's literal, until one is falsified.
pub fn visit_watchers(
    trail: &mut Trail,
    watches: &mut Watches,
    clauses: &Clauses,
    step: usize,
) -> Result<Ended, Memory>
    requires below { AreBelow (length trail.old.marks) clauses.now }
    requires held { IsHeld trail.old clauses.now watches.old }
    requires step { step < length trail.old.steps }
    requires keeps { AllKeepUp (before trail.old.marks trail.old.places step) (marked trail.old.marks) clauses.now watches.old.pairs }
    ensures { IfOk result (λ ended. StepSays trail.old trail.new clauses.now watches.new step ended) }
{
    let falsified = trail.step(step).lit.negate();
    let mut at = 0;
    while at < watches.count(falsified) {
        let did = visit(trail, watches, clauses, falsified, at)?;
        match did {
            Visit::Falsified(number) => return Ok(Ended::Conflict(number)),
            Visit::Stays => at += 1,
            Visit::Moved => {}
        }
    }
    Ok(Ended::Quiet)
}
