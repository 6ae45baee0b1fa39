//! Laws of what a term reaches. Each function computes nothing; its clauses are theorems.
ghost use Rattle.civl_blast.specs.reach.Laws.{ReachedVariablesDecide};

/// A term's value depends on no variable but those that it reaches.
pub fn reached_variables_decide()
    ensures { ReachedVariablesDecide }
{}
