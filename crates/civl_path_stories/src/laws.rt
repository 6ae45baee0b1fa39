//! Laws on stories, each the contract of a function that does nothing.
ghost use Rattle.civl_path_stories.specs.Laws.{LossesTellLosses};
ghost use Rattle.civl_path_stories.specs.examples.Around.{WorkedAround};
ghost use Rattle.civl_path_stories.specs.examples.Before.{WorkedBefore};
ghost use Rattle.civl_path_stories.specs.examples.Gates.{WorkedStory};

/// The whole story of a procedure that calls an action whose gate is false.
pub fn worked_story()
    ensures { WorkedStory }
{}

/// What is lost on a path is told in a story that says where.
pub fn losses_tell_losses()
    ensures { LossesTellLosses }
{}

/// What stands around the statements of a body with two `if`s and a loop, one in the other.
pub fn worked_around()
    ensures { WorkedAround }
{}

/// What is told of what a path passes whose second commit is lost.
pub fn worked_before()
    ensures { WorkedBefore }
{}
