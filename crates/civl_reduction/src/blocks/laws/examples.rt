//! Worked examples.
ghost use Rattle.civl_reduction.specs.blocks.examples.Yard.{Straight, Branches, Again, Pausing, Others, InsideOrNot};
ghost use Rattle.civl_reduction.specs.blocks.examples.Blocks.{ABlockWithoutAStep, ACommit, AnIntro, AnIntroAtTheEntry, ChallengedAtABlock, ChallengedBeforeTheCall, ChallengedByTheShadow, TwoInARow};

/// Where a thread stands at each place of a body, in branches and in loops.
pub fn at_each_place()
    ensures straight { Straight }
    ensures branches { Branches }
    ensures again { Again }
    ensures pausing { Pausing }
{}

/// Before and behind a body, in a root, at an entry with a yield and in an empty body.
pub fn elsewhere()
    ensures others { Others }
    ensures inside { InsideOrNot }
{}

/// Intros and commits take effect with the step before them, or with the call that makes the frame.
pub fn notes()
    ensures intro { AnIntro }
    ensures entry { AnIntroAtTheEntry }
    ensures commit { ACommit }
{}

/// Blocks without a step take effect with the thread's next step.
pub fn quiet_blocks()
    ensures one { ABlockWithoutAStep }
    ensures two { TwoInARow }
{}

/// Where a refined action's gate is false, before the call and at the beginning of a block, with the shadow's values.
pub fn challenges()
    ensures call { ChallengedBeforeTheCall }
    ensures block { ChallengedAtABlock }
    ensures shadow { ChallengedByTheShadow }
{}
