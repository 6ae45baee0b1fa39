//! The laws. Each function computes nothing; its clauses are theorems.
ghost use Rattle.civl_reduction.specs.blocks.Turns.{NothingAheadBehindTurns, CallsRunNoBodies, ThreadsTurnOnce};
ghost use Rattle.civl_reduction.specs.blocks.Merged.{ActionsActAsThere, MergedCarry, MergedFit};
ghost use Rattle.civl_reduction.specs.blocks.Steady.{InvariantsBegin, ActionsAreSteady, BlocksAreSteady};

pub mod examples;

/// Where the rule on phases is kept, no call of a right or atomic action is ahead in a block behind one of a left or atomic
/// action; and in the program of a layer, calls in procedures of the layer above run no bodies.
pub fn bodies_turn_once()
    ensures turned { NothingAheadBehindTurns }
    ensures below { CallsRunNoBodies }
{}

/// So a thread that stands late calls left movers alone, doesn't wait, and isn't early again in its block; and one that is early
/// behind a call has called a right mover.
pub fn threads_turn_once()
    ensures { ThreadsTurnOnce }
{}

/// With other values for the globals that the next layer introduces a store has values of their sorts, carries the same
/// permissions, and actions of the layer do the same in it.
pub fn merged()
    ensures fit { MergedFit }
    ensures carry { MergedCarry }
    ensures acts { ActionsActAsThere }
{}

/// Where all conditions hold, the invariants of a step hold in initial stores, and actions and blocks are steady.
pub fn steady()
    ensures start { InvariantsBegin }
    ensures actions { ActionsAreSteady }
    ensures blocks { BlocksAreSteady }
{}
