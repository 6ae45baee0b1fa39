// The engine of propagation on its way from branch to branch.
ghost use Rattle.std.specs.Prelude.{◌≡◌, ◌<◌, ◌+◌, ◌++◌, ◌∷◌, [], List, length, IfOk};
ghost use Rattle.civl_cnf.specs.Literal.{Literal};
ghost use Rattle.civl_cnf.specs.ClauseSet.{ClauseSet};
ghost use Rattle.civl_units.specs.Trail.{IsOpen};
ghost use Rattle.civl_propagation.specs.Trail.{AreDecided};
ghost use Rattle.civl_propagation.specs.Engine.{IsAtRest};
ghost use Rattle.civl_provers.specs.inner.Node.{HaveValuesFrom, EndSays};
ghost use Rattle.civl_provers.specs.inner.Standing.{IsAtBranch, LookSays, IsTurning};

use crate::memory::Memory;
use civl_cnf::{Cnf, Lit};
use civl_propagation::{Ended, Engine};

/// The variable behind that of the last choice, or the end of the variables where no choice was made.
pub fn end_of(falses: &[Lit], variables: u32) -> usize
    ensures { EndSays variables falses.now result }
{
    if falses.len() == 0 {
        return variables as usize;
    }
    falses[falses.len() - 1].variable() as usize + 1
}

/// Gives an engine the clauses of a set: whether propagation refutes them.
pub fn load(engine: &mut Engine, cnf: &Cnf) -> Result<bool, Memory>
    requires rest { IsAtRest engine.old }
    requires none { engine.old.clauses ≡ [] }
    requires size { length engine.old.trail.marks ≡ cnf.now.variables }
    requires decided { AreDecided engine.old.trail [] }
    ensures { IfOk result (λ conflict. LookSays engine.new cnf.now [] conflict) }
{
    for at in 0..cnf.len() {
        let ended = engine.add(cnf.clause(at).lits())?;
        match ended {
            Ended::Conflict(_) => return Ok(true),
            Ended::Quiet => {}
        }
    }
    Ok(false)
}

/// Makes a literal false whose variable is the last without a value, on a level more: whether propagation refutes the branch.
pub fn assume_false(engine: &mut Engine, lit: Lit) -> Result<bool, Memory>
    requires rest { IsAtRest engine.old }
    requires below { lit.variable < length engine.old.trail.marks }
    requires open { IsOpen engine.old.trail.marks lit }
    requires behind { HaveValuesFrom engine.old.trail.marks (lit.variable + 1) }
    ensures { IfOk result (λ conflict. (set : ClauseSet) (falses : List Literal) → IsAtBranch engine.old set falses → LookSays engine.new set (falses ++ lit ∷ []) conflict) }
{
    let ended = engine.decide(lit.negate())?;
    match ended {
        Ended::Conflict(_) => Ok(true),
        Ended::Quiet => Ok(false),
    }
}

/// Goes to a branch whose last choice was turned: what it has in common with the one before stays. Whether propagation refutes it.
pub fn turn(engine: &mut Engine, falses: &[Lit]) -> Result<bool, Memory>
    requires { (set : ClauseSet) × (old : List Literal) × IsTurning engine.old set old falses.now }
    ensures { IfOk result (λ conflict. (set : ClauseSet) (old : List Literal) → IsTurning engine.old set old falses.now → LookSays engine.new set falses.now conflict) }
{
    let last = falses.len() - 1;
    engine.cut(last);
    let conflict = assume_false(engine, falses[last])?;
    Ok(conflict)
}
