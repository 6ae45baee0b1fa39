// Replaying a log.
ghost use Rattle.std.specs.Prelude.{◌≡◌, ◌↔◌, ◌≤◌, ◌++◌, [], None, Some, ℕ, List, length, IfOk, IsTrue, Contains};
ghost use Rattle.civl_cnf.specs.Literal.{Literal};
ghost use Rattle.civl_cnf.specs.ClauseSet.{AreBelow};
ghost use Rattle.civl_rup.specs.inner.Standing.{Stands, ScanSays};
ghost use Rattle.civl_rup.specs.Rup.{HaveRup, HasRupAndNoEmpty, IsFirstWithoutRup, IsUnsatisfiable, Refutes};

use crate::conflicts::{add, load};
use crate::following::followed;
use crate::taking::take_clause;
use crate::{Memory, Replay};
use civl_cnf::{Clause, Cnf, Log};
use civl_propagation::Engine;
use civl_units::Marks;
use std::alloc::Global;

/// Whether one of the clauses is empty.
pub fn has_empty(clauses: &[Clause]) -> bool
    ensures { IsTrue result ↔ Contains clauses.now [] }
{
    for clause in clauses {
        if clause.len() == 0 {
            return true;
        }
    }
    false
}

/// Gives an engine the first clauses of a log, which have reverse unit propagation: whether they and those that it has give a conflict by themselves.
fn load_log(engine: &mut Engine, clauses: &[Clause], begun: bool) -> Result<bool, Memory>
    requires { (variables : ℕ) × (so_far : List (List Literal)) × Stands engine.old variables so_far begun × AreBelow variables clauses.now }
    ensures { IfOk result (λ refuted. (variables : ℕ) (so_far : List (List Literal)) → Stands engine.old variables so_far begun → Stands engine.new variables (so_far ++ clauses.now) refuted) }
{
    let mut refuted = begun;
    for clause in clauses {
        if refuted {
            return Ok(true);
        }
        refuted = add(engine, clause.lits())?;
    }
    Ok(refuted)
}

/// The place of the first clause without reverse unit propagation, if there is one, where so many clauses at the front are known to have it.
fn first_refused(alloc: Global, cnf: &Cnf, log: &Log, known: usize) -> Result<Option<usize>, Memory>
    requires within { known ≤ length log.now }
    requires rup { HaveRup cnf.now log.now known }
    ensures none { IfOk result (λ found. found ≡ None → HaveRup cnf.now log.now (length log.now)) }
    ensures some { IfOk result (λ found. (i : ℕ) → found ≡ Some i → IsFirstWithoutRup cnf.now log.now i) }
{
    let clauses = log.clauses();
    if clauses.len() <= known {
        return Ok(None);
    }
    let mut engine = Engine::new(alloc, cnf.variables())?;
    let mut marks = Marks::new(alloc, cnf.variables())?;
    let loaded = load(&mut engine, cnf)?;
    let mut refuted = load_log(&mut engine, &clauses[..known], loaded)?;
    for at in known..clauses.len() {
        match take_clause(&mut engine, &mut marks, refuted, clauses[at].lits())? {
            None => return Ok(Some(at)),
            Some(refuted_now) => refuted = refuted_now,
        }
    }
    Ok(None)
}

/// Goes through the log: first as far as its hints show that clauses have reverse unit propagation, and from there by propagation.
fn scan(alloc: Global, cnf: &Cnf, log: &Log) -> Result<Replay, Memory>
    ensures { IfOk result (λ found. ScanSays cnf.now log.now found) }
{
    let known = followed(alloc, cnf, log)?;
    match first_refused(alloc, cnf, log, known)? {
        Some(at) => Ok(Replay::NotRup(at)),
        None => {
            if has_empty(log.clauses()) {
                Ok(Replay::Refutes)
            } else {
                Ok(Replay::NoEmpty)
            }
        }
    }
}

/// Replays a log of learned clauses, which may be any list of clauses, with any hints. Each has to have reverse unit propagation from the clause set and the clauses before it: no variable stands twice in it, its variables are the clause set's, and making its literals false and propagating units gives a conflict. Where all have it and one is empty, the log refutes the clause set, and no bits make it true.
///
/// # Errors
///
/// For want of memory.
pub fn replay(alloc: Global, cnf: &Cnf, log: &Log) -> Result<Replay, Memory>
    ensures not_rup { IfOk result (λ r. (i : ℕ) → (r ≡ Replay.NotRup i) ↔ IsFirstWithoutRup cnf.now log.now i) }
    ensures no_empty { IfOk result (λ r. (r ≡ Replay.NoEmpty) ↔ HasRupAndNoEmpty cnf.now log.now) }
    ensures refutes { IfOk result (λ r. (r ≡ Replay.Refutes) ↔ Refutes cnf.now log.now) }
    ensures sound { IfOk result (λ r. r ≡ Replay.Refutes → IsUnsatisfiable cnf.now.clauses) }
{
    let found = scan(alloc, cnf, log)?;
    Ok(found)
}
