//! Worked examples of paths.
ghost use Rattle.civl_conditions.specs.paths.examples.Ways.{ThroughTwoIfs, PastACall, GateFails, AssertFails, GuardStops, ChoicesByNumber, OthersStop, BlockCommits, OnceOrTwice, TwoCommits, Introduces, ComesToLoop, FromLoop, FromInside, RankLoops, FlowsOfIfs, FlowsOfLoop, EndsOfLoop};

/// A path through two `if`s, to a yield.
pub fn through_ifs()
    ensures { ThroughTwoIfs }
{}

/// A path to the exit; and those that end before a false gate, a false assert or a false guard.
pub fn calls()
    ensures past { PastACall }
    ensures gate { GateFails }
    ensures assert { AssertFails }
    ensures guard { GuardStops }
    ensures choices { ChoicesByNumber }
    ensures others { OthersStop }
{}

/// Blocks that end with a new commit, without one, or with a second one; and intros.
pub fn commits()
    ensures block { BlockCommits }
    ensures next { OnceOrTwice }
    ensures two { TwoCommits }
    ensures intro { Introduces }
{}

/// Paths to a loop, round it, past it, and from inside it.
pub fn loops()
    ensures to { ComesToLoop }
    ensures from { FromLoop }
    ensures inside { FromInside }
    ensures ranked { RankLoops }
{}

/// The statements that paths pass, and where they end.
pub fn flows()
    ensures ifs { FlowsOfIfs }
    ensures loop_flows { FlowsOfLoop }
    ensures ends { EndsOfLoop }
{}
