//! One step of each kind, and each answer.
ghost use Rattle.civl_meaning.specs.examples.Steps.{NoThreadThere, ThreadEnded, AssertFails, GateIsFalse, GateBeforeChoices, TooFewChoices, TooManyChoices, ChoiceOfOtherSort, GuardIsFalse, Assigns, FirstBranch, BranchEnds, SecondBranch, BranchBehindBranch, FirstOfTwoEnds, LoopBegins, LoopGoesRound, LoopEnds, AssertHolds, ChoicesElsewhere, YieldLoopBegins, YieldLoopGoesRound, YieldLoopEnds, RankLoopBegins, RankLoopGoesRound, RankLoopEnds, CallOfThread, CallOfBody, OutputsAreReturned, DeepReturn, FirstFrameReturns, ActionFires, SpawnedBehind};

/// What refuses a step leaves the configuration.
pub fn refusals()
    ensures nothread { NoThreadThere }
    ensures ended { ThreadEnded }
    ensures failing { AssertFails }
    ensures gate { GateIsFalse }
    ensures gate_first { GateBeforeChoices }
    ensures too_few { TooFewChoices }
    ensures too_many { TooManyChoices }
    ensures other_sort { ChoiceOfOtherSort }
    ensures blocked { GuardIsFalse }
{}

/// Assignments, branches, loops and asserts.
pub fn local_steps()
    ensures assign { Assigns }
    ensures first_branch { FirstBranch }
    ensures branch_end { BranchEnds }
    ensures second_branch { SecondBranch }
    ensures behind_branch { BranchBehindBranch }
    ensures behind_both { FirstOfTwoEnds }
    ensures loop_begin { LoopBegins }
    ensures loop_round { LoopGoesRound }
    ensures loop_end { LoopEnds }
    ensures assertion { AssertHolds }
    ensures choices { ChoicesElsewhere }
{}

/// The loops with invariants are plain loops.
pub fn other_loops()
    ensures yield_begin { YieldLoopBegins }
    ensures yield_round { YieldLoopGoesRound }
    ensures yield_end { YieldLoopEnds }
    ensures rank_begin { RankLoopBegins }
    ensures rank_round { RankLoopGoesRound }
    ensures rank_end { RankLoopEnds }
{}

/// Calls of bodies, and returns.
pub fn calls()
    ensures thread { CallOfThread }
    ensures body { CallOfBody }
    ensures outputs { OutputsAreReturned }
    ensures deep { DeepReturn }
    ensures first_frame { FirstFrameReturns }
{}

/// An action makes all updates at once; a spawned thread stands behind all others.
pub fn actions_and_spawns()
    ensures action { ActionFires }
    ensures spawn { SpawnedBehind }
{}
