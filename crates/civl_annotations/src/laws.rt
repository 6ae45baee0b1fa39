//! The laws. Each function computes nothing; its clauses are theorems.
ghost use Rattle.civl_annotations.specs.Kept.{BareHasShape, BareKeepsNumbers, BareIsBare};
ghost use Rattle.civl_annotations.specs.FilledLaws.{FilledIsBare, FilledHasFound, FilledBack, AnnotationsTell};
ghost use Rattle.civl_annotations.specs.examples.Worker.{WorkerIsBare, WorkerIsFilled, WorkerIsBegun};
ghost use Rattle.civl_annotations.specs.Alike.{StartAlike, StepAlike, FailAlike, CanFailAlike, PreserveAlike, SafeAlike};

/// Without its annotations a program is what its runs look at, with the same numbers.
pub fn bare_keeps()
    ensures shape { BareHasShape }
    ensures numbers { BareKeepsNumbers }
    ensures again { BareIsBare }
{}

/// Programs that differ in annotations alone start alike, step alike and fail alike.
pub fn run_alike()
    ensures starts { StartAlike }
    ensures steps { StepAlike }
    ensures fails { FailAlike }
{}

/// So they can fail from the same stores, and what is claimed of the one holds of the other.
pub fn mean_alike()
    ensures failures { CanFailAlike }
    ensures preserved { PreserveAlike }
    ensures safe { SafeAlike }
{}

/// Filling in changes annotations alone, to those with what was found for them; and a program is the bare one, filled with its own.
pub fn filled_alike()
    ensures bare { FilledIsBare }
    ensures found { FilledHasFound }
    ensures back { FilledBack }
    ensures tell { AnnotationsTell }
{}

/// A worker without annotations, and with some that were found.
pub fn worker()
    ensures bare { WorkerIsBare }
    ensures filled { WorkerIsFilled }
    ensures begun { WorkerIsBegun }
{}
