// Unit propagation along the trail.
ghost use Rattle.std.specs.Prelude.{◌<◌, ◌≤◌, [], length, slice_index_or, IsTrue, IfOk};
ghost use Rattle.civl_cnf.specs.ClauseSet.{AreBelow};
ghost use Rattle.civl_units.specs.Marks.{marked, IsQuiet};
ghost use Rattle.civl_propagation.specs.Trail.{IsTrailOver, before};
ghost use Rattle.civl_propagation.specs.Propagation.{ServeSays};
ghost use Rattle.civl_propagation.specs.Watches.{AllKeepUp, IsHeld, PropagationSays};

use crate::Memory;
use crate::clauses::Clauses;
use crate::trail::Trail;
use crate::visits::visit_watchers;
use crate::watches::Watches;
use civl_units::{Rule, rule_of};

/// How propagation ends: the clause with this number is falsified, or nothing more is forced.
#[derive(Clone, Copy, Debug, PartialEq, Eq)]
pub enum Ended {
    Conflict(usize),
    Quiet,
}

/// Makes true what one clause forces, unless the caller knows that it forces nothing.
pub fn serve(
    trail: &mut Trail,
    clauses: &Clauses,
    number: usize,
    quiet: bool,
) -> Result<Ended, Memory>
    requires number { number < length clauses.now }
    requires below { AreBelow (length trail.old.marks) clauses.now }
    requires trail { IsTrailOver trail.old clauses.now }
    requires known { IsTrue quiet → IsQuiet (marked trail.old.marks) (slice_index_or clauses.now number []) }
    ensures { IfOk result (ServeSays trail.old trail.new clauses.now number) }
{
    if quiet {
        return Ok(Ended::Quiet);
    }
    match rule_of(trail.marks(), clauses.lits(number)) {
        Rule::Falsified => Ok(Ended::Conflict(number)),
        Rule::Quiet => Ok(Ended::Quiet),
        Rule::Forces(lit) => {
            trail.push(lit, Some(number))?;
            Ok(Ended::Quiet)
        }
    }
}

/// Propagates what was made true from a place of the trail on: for each literal the clauses that watch its opposite are visited.
pub fn propagate(
    trail: &mut Trail,
    watches: &mut Watches,
    clauses: &Clauses,
    from: usize,
) -> Result<Ended, Memory>
    requires below { AreBelow (length trail.old.marks) clauses.now }
    requires held { IsHeld trail.old clauses.now watches.old }
    requires from { from ≤ length trail.old.steps }
    requires keeps { AllKeepUp (before trail.old.marks trail.old.places from) (marked trail.old.marks) clauses.now watches.old.pairs }
    ensures { IfOk result (λ ended. PropagationSays trail.old trail.new clauses.now watches.new ended) }
{
    let mut at = from;
    while at < trail.len() {
        let ended = visit_watchers(trail, watches, clauses, at)?;
        match ended {
            Ended::Quiet => at += 1,
            Ended::Conflict(falsified) => return Ok(Ended::Conflict(falsified)),
        }
    }
    Ok(Ended::Quiet)
}
