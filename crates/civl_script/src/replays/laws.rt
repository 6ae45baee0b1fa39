//! Laws of the definition. Each function computes nothing; its clauses are theorems. The last ones are worked examples.
ghost use Rattle.civl_script.specs.replays.Trace.{TracesAreTold};
ghost use Rattle.civl_script.specs.replays.Sound.{ReplaysStayInTheirProgram, StopsHaveCauses};
ghost use Rattle.civl_script.specs.replays.examples.Flag.{BeforeTheReturn, AfterTheEnd, NoMoves, AtTheTop, GateStops, OtherThread};
ghost use Rattle.civl_script.specs.replays.examples.Increments.{LowTrace, TopTrace, NoSuchThread};

/// What a schedule gives is told by its runs alone: the moves that were made run from the start to the last
/// configuration, the next one isn't made there, and the rest is read off there.
pub fn traces()
    ensures { TracesAreTold }
{}

/// Type soundness speaks of what is replayed: on a plain program that keeps the rules, as those of the layers do, the moves of
/// a schedule lead to configurations of the program, and where a replay stops before a move, this has its cause there.
pub fn soundness()
    ensures stays { ReplaysStayInTheirProgram }
    ensures stops { StopsHaveCauses }
{}

/// A flag that is set: its schedules from a store in which it isn't.
pub fn flag()
    ensures before_the_return { BeforeTheReturn }
    ensures after_the_end { AfterTheEnd }
    ensures no_moves { NoMoves }
    ensures at_the_top { AtTheTop }
    ensures gate_stops { GateStops }
    ensures other_thread { OtherThread }
{}

/// Increments without a lock: a schedule on which one is lost, and one of the topmost program.
pub fn increments()
    ensures low { LowTrace }
    ensures top { TopTrace }
    ensures nothread { NoSuchThread }
{}
