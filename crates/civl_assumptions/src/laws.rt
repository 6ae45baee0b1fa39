//! Laws on what is assumed, each the contract of a function that does nothing.
ghost use Rattle.civl_assumptions.specs.Laws.{AssumedIsListed, ToldIsSo, ViolatedIsAssumed};

/// A condition assumes just that each thing is so that is told of it, and that what is done stays done.
pub fn assumed_is_listed()
    ensures { AssumedIsListed }
{}

/// Values violate a condition only where what it assumes is so.
pub fn violated_is_assumed()
    ensures { ViolatedIsAssumed }
{}

/// Each thing that is told of values that violate a condition is so.
pub fn told_is_so()
    ensures { ToldIsSo }
{}
