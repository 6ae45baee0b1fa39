// The search.
ghost use Rattle.std.specs.Prelude.{◌≡◌, ◌≤◌, ◌++◌, ◌∷◌, [], ◌^◌, List, Bool, length, IfOk, OnOk};
ghost use Rattle.civl_cnf.specs.Literal.{Literal};
ghost use Rattle.civl_rup.specs.inner.Standing.{IsAtRoot, Stands};
ghost use Rattle.civl_cdcl.specs.inner.Notes.{IsClear};
ghost use Rattle.civl_cdcl.specs.Turn.{AreBits};
ghost use Rattle.civl_cdcl.specs.Outcome.{OutcomeSays, IsModel, RefutesWithin, SpendsWhole};

use crate::hints::Hints;
use crate::notes::Notes;
use crate::turn::{Turn, take_turn};
use crate::{Memory, Outcome};
use civl_cnf::{Bits, Clause, Cnf, Log};
use civl_propagation::{Ended, Engine};
use std::alloc::Global;

/// The values as bits, false for a variable without one.
///
/// # Errors
///
/// For want of memory.
pub fn bits_of(alloc: Global, marks: &[Option<bool>]) -> Result<Bits, Memory>
    requires { length marks.now ≤ 2 ^ 31 }
    ensures { IfOk result (AreBits marks.now) }
{
    let mut bits = Bits::new(alloc, marks.len() as u32)?;
    for variable in 0..marks.len() {
        bits.set(variable as u32, marks[variable].unwrap_or(false));
    }
    Ok(bits)
}

/// Adds the empty clause at the end, with hints.
fn push_empty(alloc: Global, log: &mut Log, hints: &Hints) -> Result<(), Memory>
    ensures { OnOk result (log.new ≡ log.old ++ [] ∷ []) }
{
    let empty = Clause::from_slice(alloc, &[])?;
    log.push_hinted(empty, hints.numbers())?;
    Ok(())
}

/// Gives an engine the clauses of a set: whether propagation refutes them, with hints for that.
fn load(engine: &mut Engine, hints: &mut Hints, cnf: &Cnf) -> Result<bool, Memory>
    requires { IsAtRoot engine.old cnf.now.variables [] }
    ensures { IfOk result (λ refuted. Stands engine.new cnf.now.variables cnf.now.clauses refuted) }
{
    for at in 0..cnf.len() {
        let ended = engine.add(cnf.clause(at).lits())?;
        match ended {
            Ended::Conflict(falsified) => {
                hints.refute(engine.trail(), falsified)?;
                return Ok(true);
            }
            Ended::Quiet => {}
        }
    }
    Ok(false)
}

/// Goes from conflict to conflict until an outcome is found, over an engine with the clauses of the set.
fn search(
    alloc: Global,
    engine: &mut Engine,
    notes: &mut Notes,
    cnf: &Cnf,
    budget: u32,
) -> Result<Outcome, Memory>
    requires root { IsAtRoot engine.old cnf.now.variables cnf.now.clauses }
    requires clear { IsClear notes.old.seen.items cnf.now.variables }
    ensures { IfOk result (OutcomeSays cnf.now budget) }
{
    let mut log = Log::new(alloc);
    let mut ended = Ended::Quiet;
    'turns: loop {
        let may_learn = log.len() < budget as usize;
        let turned = take_turn(alloc, engine, notes, ended, may_learn)?;
        match turned {
            Turn::Marked => {
                let bits = bits_of(alloc, engine.trail().marks())?;
                return Ok(Outcome::Sat(bits));
            }
            Turn::Refuted => {
                push_empty(alloc, &mut log, &notes.hints)?;
                return Ok(Outcome::Unsat(log));
            }
            Turn::Full => return Ok(Outcome::Spent(log)),
            Turn::Learns(clause) => {
                let next = engine.add(clause.lits())?;
                log.push_hinted(clause, notes.hints.numbers())?;
                ended = next;
            }
        }
    }
}

/// The log of clauses that propagation refutes: the empty clause.
fn empty_log(alloc: Global, hints: &Hints) -> Result<Log, Memory>
    ensures { IfOk result (λ log. log ≡ [] ∷ []) }
{
    let mut log = Log::new(alloc);
    push_empty(alloc, &mut log, hints)?;
    Ok(log)
}

/// Gives a new engine the clauses, and searches.
fn run(alloc: Global, cnf: &Cnf, budget: u32) -> Result<Outcome, Memory>
    ensures { IfOk result (OutcomeSays cnf.now budget) }
{
    let count = cnf.variables();
    let mut engine = Engine::new(alloc, count)?;
    let mut notes = Notes::new(alloc, count)?;
    let refuted = load(&mut engine, &mut notes.hints, cnf)?;
    if refuted {
        let log = empty_log(alloc, &notes.hints)?;
        return Ok(Outcome::Unsat(log));
    }
    let outcome = search(alloc, &mut engine, &mut notes, cnf, budget)?;
    Ok(outcome)
}

/// Searches for bits that make the clause set true, and learns at most so many clauses, each of which has reverse unit propagation from the clauses before it and is new over them.
///
/// - `Sat` has such bits, one for each variable.
/// - `Unsat` has a log that refutes the clause set: the clauses that were learned, at most `budget` of them, and the empty clause behind them.
/// - `Spent` has the `budget` clauses that were learned, none of them empty. It comes only where the clauses aren't refuted by propagation and one clause more can be learned.
///
/// An `Err` says that memory was wanting.
///
/// # Errors
///
/// For want of memory.
pub fn solve(alloc: Global, cnf: &Cnf, budget: u32) -> Result<Outcome, Memory>
    ensures sat { IfOk result (λ outcome. (bits : List Bool) → outcome ≡ Outcome.Sat bits → IsModel cnf.now bits) }
    ensures unsat { IfOk result (λ outcome. (log : List (List Literal)) → outcome ≡ Outcome.Unsat log → RefutesWithin cnf.now budget log) }
    ensures spent { IfOk result (λ outcome. (log : List (List Literal)) → outcome ≡ Outcome.Spent log → SpendsWhole cnf.now budget log) }
{
    run(alloc, cnf, budget)
}
