//! Laws of the definitions, each the contract of a function that does nothing.
ghost use Rattle.civl_lift_command.specs.Laws.{EachPromiseFollows};

/// What a call promises as one value is promised of its words, its streams and its status, one by one.
pub fn each_promise_follows()
    ensures { EachPromiseFollows }
{}
