// Laws on sweeps, each the contract of a function that does nothing.
ghost use Rattle.civl_moves.specs.sweeps.Draws.{SweepsDrawPaths, SweepsDrawRests};
ghost use Rattle.civl_moves.specs.sweeps.Flowing.{SweepsStopAtEnds, PathsArriveAtEnds, EndsComeOnce, EndsAreCuts};

/// What a sweep over statements collects draws what going over them comes to.
pub fn sweeps_draw_rests()
    ensures { SweepsDrawRests }
{}

/// What a sweep from a cut collects draws what the path from there comes to.
pub fn sweeps_draw_paths()
    ensures { SweepsDrawPaths }
{}

/// A sweep from a cut stops where some path from there ends, and goes on where some path does.
pub fn sweeps_stop_at_ends()
    ensures { SweepsStopAtEnds }
{}

/// Where a path arrives is one of the ends that some path from its cut reaches.
pub fn paths_arrive_at_ends()
    ensures { PathsArriveAtEnds }
{}

/// No two ends of the paths from a cut have one number.
pub fn ends_come_once()
    ensures { EndsComeOnce }
{}

/// Each end of the paths from a cut of a procedure that refines an action is one of its cuts.
pub fn ends_are_cuts()
    ensures { EndsAreCuts }
{}
