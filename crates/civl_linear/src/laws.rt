//! What the rules on linear locals are on worked examples, and that nothing is left out on the way.
ghost use Rattle.civl_linear.specs.Lengths.{ProcsAreTraced, HeldAtEachCut};
ghost use Rattle.civl_linear.specs.examples.Linear.{NotHeldArguments, HeldTwice, NotReturned, Misassigned, LoopsAndBranches, HeldAtCuts};
ghost use Rattle.civl_linear.specs.examples.Spawning.{SpawnsTake, PoolDrops};

/// E40: arguments that aren't held.
pub fn not_held_arguments()
    ensures { NotHeldArguments }
{}

/// E41: what is held twice.
pub fn held_twice()
    ensures { HeldTwice }
{}

/// E42: what is owed at the exit.
pub fn not_returned()
    ensures { NotReturned }
{}

/// E43: assigns and results.
pub fn misassigned()
    ensures { Misassigned }
{}

/// What loops lose, and what is held behind branches and loops.
pub fn loops_and_branches()
    ensures { LoopsAndBranches }
{}

/// What is held at cuts.
pub fn held_at_cuts()
    ensures { HeldAtCuts }
{}

/// Spawns that take a permission twice, or a lent one.
pub fn spawns_take()
    ensures { SpawnsTake }
{}

/// A permission that is dropped twice, and one that stands for two.
pub fn pool_drops()
    ensures { PoolDrops }
{}

/// What is held is told before each statement, and for each name of the procedure.
pub fn procs_are_traced()
    ensures { ProcsAreTraced }
{}

/// What is held is told for each cut.
pub fn held_at_each_cut()
    ensures { HeldAtEachCut }
{}
