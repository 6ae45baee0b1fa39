// What propagation says of the clauses that an engine has.
ghost use Rattle.std.specs.Prelude.{◌≡◌, ◌++◌, ◌∷◌, [], ◌↔◌, length, IsTrue, IfOk, OnOk};
ghost use Rattle.civl_cnf.specs.ClauseSet.{IsBelow};
ghost use Rattle.civl_units.specs.Propagation.{GivesConflict};
ghost use Rattle.civl_propagation.specs.Trail.{AreDecided};
ghost use Rattle.civl_propagation.specs.Engine.{IsAtRest};
ghost use Rattle.civl_rup.specs.Rup.{HasEachOnce};
ghost use Rattle.civl_rup.specs.inner.Standing.{IsAtRoot, Stands, IsAbove};

use crate::Memory;
use civl_cnf::{Cnf, Lit};
use civl_propagation::{Ended, Engine};

/// Adds a clause at the root: whether the clauses give a conflict by themselves then.
pub fn add(engine: &mut Engine, clause: &[Lit]) -> Result<bool, Memory>
    requires rest { IsAtRest engine.old }
    requires decided { AreDecided engine.old.trail [] }
    requires below { IsBelow (length engine.old.trail.marks) clause.now }
    ensures { IfOk result (λ refuted. Stands engine.new (length engine.old.trail.marks) (engine.old.clauses ++ clause.now ∷ []) refuted) }
{
    let ended = engine.add(clause)?;
    match ended {
        Ended::Conflict(_) => Ok(true),
        Ended::Quiet => Ok(false),
    }
}

/// Gives an engine the clauses of a set: whether they give a conflict by themselves.
pub fn load(engine: &mut Engine, cnf: &Cnf) -> Result<bool, Memory>
    requires { IsAtRoot engine.old cnf.now.variables [] }
    ensures { IfOk result (λ refuted. Stands engine.new cnf.now.variables cnf.now.clauses refuted) }
{
    for at in 0..cnf.len() {
        if add(engine, cnf.clause(at).lits())? {
            return Ok(true);
        }
    }
    Ok(false)
}

/// Makes literals false, one after the other, each on a level of its own where it isn't false already. Whether that meets a conflict, or a literal that is true.
pub fn make_false(engine: &mut Engine, lits: &[Lit]) -> Result<bool, Memory>
    requires rest { IsAtRest engine.old }
    requires decided { AreDecided engine.old.trail [] }
    requires below { IsBelow (length engine.old.trail.marks) lits.now }
    requires once { HasEachOnce lits.now }
    ensures above { OnOk result (IsAbove engine.new) }
    ensures clauses { OnOk result (engine.new.clauses ≡ engine.old.clauses) }
    ensures size { OnOk result (length engine.new.trail.marks ≡ length engine.old.trail.marks) }
    ensures exact { IfOk result (λ conflict. IsTrue conflict ↔ GivesConflict engine.old.clauses lits.now) }
{
    for lit in lits {
        match engine.trail().marks()[lit.variable() as usize] {
            Some(value) => {
                if value == lit.positive() {
                    return Ok(true);
                }
            }
            None => match engine.decide(lit.negate())? {
                Ended::Conflict(_) => return Ok(true),
                Ended::Quiet => {}
            },
        }
    }
    Ok(false)
}

/// Takes back all that was decided.
fn back_to_root(engine: &mut Engine)
    requires { IsAbove engine.old }
    ensures { IsAtRoot engine.new (length engine.old.trail.marks) engine.old.clauses }
{
    if engine.trail().levels() > 0 {
        engine.cut(0);
    }
}

/// Whether making these literals false gives a conflict. What was decided for that is taken back, and what the clauses force by themselves stays.
pub fn gives_conflict(engine: &mut Engine, lits: &[Lit]) -> Result<bool, Memory>
    requires rest { IsAtRest engine.old }
    requires decided { AreDecided engine.old.trail [] }
    requires below { IsBelow (length engine.old.trail.marks) lits.now }
    requires once { HasEachOnce lits.now }
    ensures root { OnOk result (IsAtRoot engine.new (length engine.old.trail.marks) engine.old.clauses) }
    ensures exact { IfOk result (λ conflict. IsTrue conflict ↔ GivesConflict engine.old.clauses lits.now) }
{
    let conflict = make_false(engine, lits)?;
    back_to_root(engine);
    Ok(conflict)
}
