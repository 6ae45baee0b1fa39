// One clause of a log.
ghost use Rattle.std.specs.Prelude.{◌≡◌, ◌++◌, ◌∷◌, [], ◌↔◌, List, length, IsTrue, IfOk, OnOk};
ghost use Rattle.civl_cnf.specs.Literal.{Literal};
ghost use Rattle.civl_cnf.specs.ClauseSet.{IsBelow};
ghost use Rattle.civl_rup.specs.Rup.{HasEachOnce};
ghost use Rattle.civl_rup.specs.inner.Standing.{Stands, TakeSays};

use crate::Memory;
use crate::conflicts::{add, gives_conflict};
use civl_cnf::Lit;
use civl_propagation::Engine;
use civl_units::{Marks, assume};

/// Whether all variables of the clause are known, and none stands twice. There is a mark for each variable, and what the marks were doesn't matter.
pub fn is_fit(marks: &mut Marks, clause: &[Lit]) -> Result<bool, Memory>
    ensures fit { IfOk result (λ fit. IsTrue fit ↔ (IsBelow (length marks.old.values) clause.now × HasEachOnce clause.now)) }
    ensures size { OnOk result (length marks.new.values ≡ length marks.old.values) }
{
    marks.clear();
    let fit = assume(marks, clause)?;
    Ok(fit)
}

/// Takes a clause of a log. `None`: it has no reverse unit propagation from the clauses so far. Else it is added, and the answer says whether they give a conflict by themselves now. Where they did before, each fit clause has it, and the engine isn't asked any more.
pub fn take_clause(
    engine: &mut Engine,
    marks: &mut Marks,
    refuted: bool,
    clause: &[Lit],
) -> Result<Option<bool>, Memory>
    requires { (clauses : List (List Literal)) × Stands engine.old (length marks.old.values) clauses refuted }
    ensures says { IfOk result (λ taken. (clauses : List (List Literal)) → Stands engine.old (length marks.old.values) clauses refuted → TakeSays engine.new (length marks.old.values) clauses clause.now (clauses ++ clause.now ∷ []) taken) }
    ensures size { OnOk result (length marks.new.values ≡ length marks.old.values) }
{
    if !is_fit(marks, clause)? {
        return Ok(None);
    }
    if refuted {
        return Ok(Some(true));
    }
    if !gives_conflict(engine, clause)? {
        return Ok(None);
    }
    let refuted_now = add(engine, clause)?;
    Ok(Some(refuted_now))
}
