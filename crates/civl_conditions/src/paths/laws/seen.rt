//! What paths and steps see of a store, and the choices that paths read.
ghost use Rattle.civl_conditions.specs.paths.Seen.{StepsSeeTheirGlobals, PathsSeeTheirGlobals};
ghost use Rattle.civl_conditions.specs.paths.Choices.{RestsReadTheirChoices, PathsReadTheirChoices, PathsReadFittingChoices, PassedStandInBody};

/// A statement of a layered procedure does the same in two stores that agree on the globals of the lower program.
pub fn steps_see_their_globals()
    ensures { StepsSeeTheirGlobals }
{}

/// The path from a cut of a layered procedure comes to the same from two states that agree on the globals of its step.
pub fn paths_see_their_globals()
    ensures { PathsSeeTheirGlobals }
{}

/// Going over statements reads the choices of the calls that their flow passes, and no others.
pub fn rests_read_their_choices()
    ensures { RestsReadTheirChoices }
{}

/// A path from a cut reads the choices of the calls that its flow passes, and no others.
pub fn paths_read_their_choices()
    ensures { PathsReadTheirChoices }
{}

/// A path that doesn't stop is the same with all other choices that agree where these fit.
pub fn paths_read_fitting_choices()
    ensures { PathsReadFittingChoices }
{}

/// The statements that a flow passes stand in the body at their numbers.
pub fn passed_stand_in_body()
    ensures { PassedStandInBody }
{}
