// What one clause marks.
ghost use Rattle.std.specs.Prelude.{length, IfOk};
ghost use Rattle.civl_cnf.specs.ClauseSet.{IsBelow};
ghost use Rattle.civl_units.specs.Marks.{VisitSays};

use crate::Memory;
use crate::marks::Marks;
use crate::rule::{Rule, rule_of};
use civl_cnf::Lit;

/// Marks what the clause forces: whether it is falsified.
pub fn mark_forced(marks: &mut Marks, clause: &[Lit]) -> Result<bool, Memory>
    requires { IsBelow (length marks.old.values) clause.now }
    ensures { IfOk result (λ falsified. VisitSays marks.old marks.new clause.now falsified) }
{
    match rule_of(marks.values(), clause) {
        Rule::Falsified => Ok(true),
        Rule::Quiet => Ok(false),
        Rule::Forces(lit) => {
            marks.set(lit)?;
            Ok(false)
        }
    }
}
