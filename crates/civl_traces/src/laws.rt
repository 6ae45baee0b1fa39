//! Laws on traces, each the contract of a function that does nothing.
ghost use Rattle.civl_traces.specs.Turns.{TracesAreChains};
ghost use Rattle.civl_traces.specs.Laws.{TracesAreOfPaths, TracesAreJoined, PassedStandInBody, TracesEndSo, ChangesLead};
ghost use Rattle.civl_traces.specs.examples.Walks.{ThroughTheCall, ByTheOtherBranch, PastTheLoop, ToTheAssert, ToTheGate, ToTheGuard, OfAnotherCall, FromTheEntry};

/// A trace is the chain of the path's turns: each takes the first of what is still to run.
pub fn traces_are_chains()
    ensures { TracesAreChains }
{}

/// A trace comes to what its path comes to.
pub fn traces_are_of_paths()
    ensures { TracesAreOfPaths }
{}

/// Each statement is passed from where the one in front of it came.
pub fn traces_are_joined()
    ensures { TracesAreJoined }
{}

/// Each statement that is passed stands in the body at its number, and is passed alone.
pub fn passed_stand_in_body()
    ensures { PassedStandInBody }
{}

/// Where a trace ends stands what it ends before: a cut, what fails or what isn't passed; or it is the exit.
pub fn traces_end_so()
    ensures { TracesEndSo }
{}

/// What is told to change leads from the values before a statement to those behind it.
pub fn changes_lead()
    ensures { ChangesLead }
{}

/// Paths of a procedure with a loop, an `if`, a call, a commit and an intro, with a row among the values.
pub fn walk_examples()
    ensures call { ThroughTheCall }
    ensures branch { ByTheOtherBranch }
    ensures past { PastTheLoop }
    ensures assert { ToTheAssert }
    ensures gate { ToTheGate }
    ensures guard { ToTheGuard }
    ensures another { OfAnotherCall }
    ensures entry { FromTheEntry }
{}
