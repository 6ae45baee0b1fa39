//! Laws on marks, each the contract of a function that does nothing.
ghost use Rattle.civl_marks.specs.Laws.{StillViolated};

/// With all marked values exchanged at once a condition is violated still.
pub fn still_violated()
    ensures { StillViolated }
{}
