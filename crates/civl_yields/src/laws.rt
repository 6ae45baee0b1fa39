//! What the rules on yields and movers are on worked examples, and that nothing is left out on the way.
ghost use Rattle.civl_yields.specs.Heads.{HeadIsLeast};
ghost use Rattle.civl_yields.specs.Lengths.{PhaseBeforeEach, EachIsInside, PhaseBeforeEachCall};
ghost use Rattle.civl_yields.specs.examples.Late.{LateInOrder, PhasesOnSomeWay, PhasesBehindYields, LateInSpinlock, PhasesBeforeCalls};
ghost use Rattle.civl_yields.specs.examples.Misplaced.{InsideRankLoops, NestedInRankLoops, MisplacedStatements, SpawnsOfFlag, StrayInItems, StrayInStatements};

/// E50: right movers, a turning point, left movers.
pub fn late_in_order()
    ensures { LateInOrder }
{}

/// The phases behind branches and in loops.
pub fn phases_on_some_way()
    ensures { PhasesOnSomeWay }
{}

/// A block begins behind a yield and at the head of a yield loop.
pub fn phases_behind_yields()
    ensures { PhasesBehindYields }
{}

/// E50: the spinlock with a counter, and one that is released too early.
pub fn late_in_spinlock()
    ensures { LateInSpinlock }
{}

/// The phases before calls.
pub fn phases_before_calls()
    ensures { PhasesBeforeCalls }
{}

/// Which statements stand inside rank loops.
pub fn inside_rank_loops()
    ensures { InsideRankLoops }
{}

/// E51: which of them may not stand there.
pub fn nested_in_rank_loops()
    ensures { NestedInRankLoops }
{}

/// E52: statements in roots and in layered procedures.
pub fn misplaced_statements()
    ensures { MisplacedStatements }
{}

/// E52: spawns.
pub fn spawns_of_flag()
    ensures { SpawnsOfFlag }
{}

/// E53: `done` and `old` in items.
pub fn stray_in_items()
    ensures { StrayInItems }
{}

/// E53: `done` and `old` in statements.
pub fn stray_in_statements()
    ensures { StrayInStatements }
{}

/// The phase at the head of a loop is the least that is right on each way to it.
pub fn head_is_least()
    ensures { HeadIsLeast }
{}

/// There is a phase before each statement.
pub fn phase_before_each()
    ensures { PhaseBeforeEach }
{}

/// Each statement is told whether it stands inside a rank loop.
pub fn each_is_inside()
    ensures { EachIsInside }
{}

/// There is a phase before each call of a layered procedure.
pub fn phase_before_each_call()
    ensures { PhaseBeforeEachCall }
{}
