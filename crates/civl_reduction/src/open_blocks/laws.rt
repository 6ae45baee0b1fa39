//! The laws. Each function computes nothing; its clauses are theorems.
ghost use Rattle.civl_reduction.specs.open_blocks.Following.{FramesFollow, FramesArrive};
ghost use Rattle.civl_reduction.specs.open_blocks.Ends.{PathsDoNotFail, PathsConclude};
ghost use Rattle.civl_reduction.specs.open_blocks.Open.{OpenBlocksGoOn, BlocksOpenAtEntries, BlocksOpenBehindYields, BlocksOpenInLoops, ChoicesAreThere, CutsAheadAreCuts, OpenBlocksConclude, OpenBlocksGoRound};
ghost use Rattle.civl_reduction.specs.open_blocks.Rounds.{RankLoopsComeLater};

/// A frame that follows a path follows it on in each step that begins before no cut, and where the step fails, so does the
/// path. Before a cut, and behind all statements, the path has ended.
pub fn frames_follow()
    ensures follow { FramesFollow }
    ensures arrive { FramesArrive }
{}

/// From a cut at which all that conditions assume holds, no path fails; and where one ends, what the conditions say holds.
pub fn block_ends()
    ensures safe { PathsDoNotFail }
    ensures conclude { PathsConclude }
{}

/// Where all that the conditions assume holds, a block opens: at the entry, behind a yield, and behind the first step of a
/// loop.
pub fn blocks_open()
    ensures choices { ChoicesAreThere }
    ensures entries { BlocksOpenAtEntries }
    ensures yields { BlocksOpenBehindYields }
    ensures loops { BlocksOpenInLoops }
{}

/// An open block whose frame stands before no cut stays open in each step of its thread, and doesn't fail.
pub fn open_blocks_go_on()
    ensures { OpenBlocksGoOn }
{}

/// Before a cut and at the exit all that the conditions conclude holds; before the head of a rank loop all that they assume
/// there.
pub fn open_blocks_end()
    ensures cuts { CutsAheadAreCuts }
    ensures conclude { OpenBlocksConclude }
    ensures round { OpenBlocksGoRound }
{}

/// A path from a rank loop that comes to a rank loop comes to the same one or to a later one.
pub fn rank_loops_come_later()
    ensures { RankLoopsComeLater }
{}
