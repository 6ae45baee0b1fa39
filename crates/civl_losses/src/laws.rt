//! Laws on losses, each the contract of a function that does nothing.
ghost use Rattle.civl_losses.specs.Laws.{LossesAreTold};
ghost use Rattle.civl_losses.specs.examples.Raising.{GateIsFalse, ActionGivesMore, CommitIsForgotten, CommitIsRepeated};

use civl_traces::laws::{traces_are_of_paths, traces_end_so};

/// A loss is told exactly where values violate a condition on a path.
pub fn losses_are_told()
    ensures { LossesAreTold }
{
    traces_are_of_paths();
    traces_end_so();
}

/// Procedures that are to raise a number: one that calls an action at a false gate and gives another number, one that forgets its
/// commit, and one that repeats it.
pub fn raising()
    ensures gate { GateIsFalse }
    ensures gives { ActionGivesMore }
    ensures forgets { CommitIsForgotten }
    ensures repeats { CommitIsRepeated }
{}
