//! Laws of the definitions. Each function computes nothing; its clauses are theorems. Those of the modules below are
//! worked examples.
ghost use Rattle.civl_meaning.specs.Failing.{FailingIsAnswered};
ghost use Rattle.civl_meaning.specs.Run.{RunsAreMade, RunsJoin};
ghost use Rattle.civl_meaning.specs.Step.{RefusedStays, OthersStay};

pub mod configs;
pub mod frames;
pub mod places;
pub mod schedules;
pub mod steps;
pub mod stores;

/// A step that isn't made leaves the configuration, and one that is made leaves the other threads.
pub fn what_a_step_leaves()
    ensures refused { RefusedStays }
    ensures others { OthersStay }
{}

/// Moves run from one configuration to another exactly where a run of them makes them all and ends there; and a run of
/// moves and then of others goes on where the first ended.
pub fn runs()
    ensures made { RunsAreMade }
    ensures join { RunsJoin }
{}

/// A thread fails exactly where its step answers Failing, whatever the choices.
pub fn failing_is_answered()
    ensures { FailingIsAnswered }
{}
