//! The laws. Each function computes nothing; its clauses are theorems.
ghost use Rattle.civl_reduction.specs.gathering.Laws.{MovesAreSplit};

/// Each move is of the thread or of another one.
pub fn moves_are_split()
    ensures { MovesAreSplit }
{}
