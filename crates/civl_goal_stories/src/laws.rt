//! Laws of the definitions, each the contract of a function that does nothing.
ghost use Rattle.civl_goal_stories.specs.examples.Pooled.{LinearStory};
ghost use Rattle.civl_goal_stories.specs.examples.Watched.{AssertStory, BreakStory, GateStory, LeadStory};
ghost use Rattle.civl_goal_stories.specs.examples.Watched.{OtherStory, SpawnStory, StartStory, ThreadStory};
ghost use Rattle.civl_goal_stories.specs.Laws.{HoldsStand, NotesAreWritten, NotesStand, ProgramsStand};

/// What stands at a token of a program stands at the same token of its outlines.
pub fn programs_stand()
    ensures { ProgramsStand }
{}

/// At the token of a hold its spelling begins.
pub fn holds_stand()
    ensures { HoldsStand }
{}

/// At the token of a note its spelling begins.
pub fn notes_stand()
    ensures { NotesStand }
{}

/// The note that is told before a statement is the one that is written there.
pub fn notes_are_written()
    ensures { NotesAreWritten }
{}

/// Stories of goals of two small outlines, line by line, from the values that violate them: one of each kind of goal.
pub fn telling()
    ensures start { StartStory }
    ensures thread { ThreadStory }
    ensures gate { GateStory }
    ensures fact { AssertStory }
    ensures keep { BreakStory }
    ensures spawn { SpawnStory }
    ensures lead { LeadStory }
    ensures other { OtherStory }
    ensures linear { LinearStory }
{}
