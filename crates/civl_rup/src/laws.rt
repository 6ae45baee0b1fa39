// Laws of reverse unit propagation. Each function does nothing, and its contract is the law.
ghost use Rattle.civl_rup.specs.Laws.{CompleteRunShowsNew, RupIsEntailed, NewIsNoSuperset, SpentIsNoSuperset};

/// A complete run from the other literals of a clause shows whether the clause is new by this literal.
pub fn complete_run_shows_new()
    ensures { CompleteRunShowsNew }
{}

/// A clause with reverse unit propagation is true wherever the clauses are.
pub fn rup_clause_is_entailed()
    ensures { RupIsEntailed }
{}

/// Where a clause is new over others, none of these is a subset of it.
pub fn new_clause_is_no_superset()
    ensures { NewIsNoSuperset }
{}

/// No clause of a spent log has a clause of the set or an earlier one as a subset.
pub fn spent_clause_is_no_superset()
    ensures { SpentIsNoSuperset }
{}
