//! The laws. Each function computes nothing; its clauses are theorems.
ghost use Rattle.civl_reduction.specs.staged.Reduction.{CheckedReduce};
ghost use Rattle.civl_reduction.specs.staged.Stages.{StagesAreRuns};
ghost use Rattle.civl_reduction.specs.staged.Pausing.{FramesStandAtCuts, PausesAreApart};
ghost use Rattle.civl_reduction.specs.staged.Calm.{StartsAreCalm, StepsOutsideKeepCalm};
ghost use Rattle.civl_reduction.specs.staged.Opened.{CallsOpenBlocks, OpenBlocksEnd, OpenBlocksStep, YieldsStep};
ghost use Rattle.civl_reduction.specs.staged.Chains.{GatesStay};
ghost use Rattle.civl_reduction.specs.staged.Inside.{CheckedAreSafeInside, StagesAreBeside};
ghost use Rattle.civl_reduction.specs.staged.Measures.{OpenBlocksComeNearer};
ghost use Rattle.civl_reduction.specs.staged.Bounded.{OpenBlocksAreBounded};
ghost use Rattle.civl_reduction.specs.staged.Reduced.{CheckedEndInside, CheckedProgramsReduce};

use crate::checked::laws::checked;

/// If an interleaving of a layer's program of a checked program ends failing, a block run ends failing or challenged, where
/// blocks that stand together don't fail and end.
pub fn reduces()
    ensures { CheckedReduce }
{
    checked();
}

/// A block run of such a program, with the first steps of a block behind it, is a run, along which permissions stay apart; and
/// only the thread of the open block stands inside one.
pub fn stages_are_runs()
    ensures { StagesAreRuns }
{
    checked();
}

/// A frame that stands at a yield stands at a cut of its procedure, and what is held there is apart from what other threads own.
pub fn pauses()
    ensures cuts { FramesStandAtCuts }
    ensures apart { PausesAreApart }
{
    checked();
}

/// All is calm where a program starts, and steps outside the procedures of the layer above leave it so.
pub fn calm()
    ensures start { StartsAreCalm }
    ensures outside { StepsOutsideKeepCalm }
{
    checked();
}

/// A call that makes a frame opens a block; a step of an open block's thread leaves it open, or ends it with its frame; and an
/// open block whose frame stands at a yield has ended: all is calm.
pub fn staged()
    ensures call { CallsOpenBlocks }
    ensures step { OpenBlocksStep }
    ensures end { OpenBlocksEnd }
{
    checked();
}

/// The gate of a refined action is alike in stores with the same values for the globals of the procedure's layer.
pub fn gates()
    ensures { GatesStay }
{}

/// A step of a thread whose frame stands at a yield, where all is calm and nothing is challenged, leaves a block open, or has
/// ended one with its frame.
pub fn yields()
    ensures { YieldsStep }
{
    checked();
}

/// Beside block runs that aren't challenged all is calm, or one block is open; and its thread doesn't fail.
pub fn inside()
    ensures beside { StagesAreBeside }
    ensures safe { CheckedAreSafeInside }
{
    checked();
    stages_are_runs();
    yields();
}

/// Each step of a thread whose block is open brings it nearer to the block's end.
pub fn open_blocks_come_nearer()
    ensures { OpenBlocksComeNearer }
{}

/// The steps of an open block that leave its thread late come to an end.
pub fn open_blocks_are_bounded()
    ensures { OpenBlocksAreBounded }
{
    stages_are_runs();
}

/// In a program all of whose conditions hold, the steps of an open block come to an end.
pub fn checked_end_inside()
    ensures { CheckedEndInside }
{
    inside();
    open_blocks_are_bounded();
}

/// In a program all of whose conditions hold, a failing interleaving of the program of a layer gives a block run that ends failing
/// or challenged.
pub fn checked_programs_reduce()
    ensures { CheckedProgramsReduce }
{
    reduces();
    inside();
    open_blocks_are_bounded();
}
