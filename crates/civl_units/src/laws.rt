// Laws of unit propagation. Each function does nothing, and its contract is the law.
ghost use Rattle.civl_units.specs.Laws.{CompleteRunDecides};

/// A complete run of unit propagation, in any order of the clauses, meets a conflict exactly where propagation gives one.
pub fn complete_run_decides()
    ensures { CompleteRunDecides }
{}
