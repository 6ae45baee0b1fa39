// Laws on paths, each the contract of a function that does nothing.
ghost use Rattle.civl_conditions.specs.paths.Runs.{StepIsOnPath, RunsAreOnPaths, PathsAreRuns, PathsBeginAtCuts};

pub mod examples;
pub mod seen;

/// A step of a frame is a step of its path.
pub fn step_is_on_path()
    ensures { StepIsOnPath }
{}

/// Where a frame stands after some steps, its path comes to what it came to before.
pub fn runs_are_on_paths()
    ensures { RunsAreOnPaths }
{}

/// Some number of steps brings a frame to the end of its path, or to where it doesn't go on.
pub fn paths_are_runs()
    ensures { PathsAreRuns }
{}

/// The path from a cut is that of the frame that goes on from there.
pub fn paths_begin_at_cuts()
    ensures { PathsBeginAtCuts }
{}
