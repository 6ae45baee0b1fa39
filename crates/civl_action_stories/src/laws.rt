//! Laws of the definitions, each the contract of a function that does nothing.
ghost use Rattle.civl_action_stories.specs.Laws.{ViolationsTellLosses};
ghost use Rattle.civl_action_stories.specs.examples.Flagged.{FreeStory, LostStory, ReadStory, StartStory, StayStory};

/// Stories of a flag and what it guards: an invariant that is false at the start, two actions that can't be exchanged, a gate
/// that becomes false, and an action that loses an invariant and what another thread says at its yield.
pub fn telling()
    ensures start { StartStory }
    ensures read { ReadStory }
    ensures free { FreeStory }
    ensures lost { LostStory }
    ensures stay { StayStory }
{}

/// What values violate a condition by is told in a story that says where something is lost.
pub fn violations_tell_losses()
    ensures { ViolationsTellLosses }
{}
