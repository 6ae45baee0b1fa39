//! The laws. Each function computes nothing; its clauses are theorems. Those of the module below are worked examples.
ghost use Rattle.civl_soundness.specs.Config.{StepIsOf, RunIsOf, ReachedIsOf};
ghost use Rattle.civl_soundness.specs.Fired.{UpdatesKeepSorts, FiredIsSorted};
ghost use Rattle.civl_soundness.specs.Scope.{GateIsSorted, GuardIsSorted, BodyIsSorted, OffersAreSorted, GateIsBool, GuardIsBool};
ghost use Rattle.civl_soundness.specs.Stepped.{AnswersHaveCauses, CausesAreAnswered};

pub mod examples;

/// In a program that keeps the static rules, the scopes of an action's gate and guard and of a procedure's statements have
/// values of the sorts that the rules give their names.
pub fn scopes_are_sorted()
    ensures gate { GateIsSorted }
    ensures guard { GuardIsSorted }
    ensures body { BodyIsSorted }
{}

/// What is offered for an action's choices has their sorts, and its gate and its guard are bools.
pub fn values_of_actions()
    ensures offers { OffersAreSorted }
    ensures gate { GateIsBool }
    ensures guard { GuardIsBool }
{}

/// An action of a program that keeps the static rules gives a store of the globals' sorts and outputs of their sorts,
/// from such a store, inputs and choices.
pub fn actions_keep_sorts()
    ensures updates { UpdatesKeepSorts }
    ensures fired { FiredIsSorted }
{}

/// A step of a configuration of a plain program that keeps the static rules gives a configuration of it, by each move
/// whose choices are values.
pub fn step_keeps_configurations()
    ensures { StepIsOf }
{}

/// So does a run by such moves; and so each configuration that is reached from the start is one of the program.
pub fn runs_keep_configurations()
    ensures run { RunIsOf }
    ensures reached { ReachedIsOf }
{}

/// In a configuration of such a program the answer of a step has its cause, and each cause its answer. So a thread that
/// hasn't ended takes its step, unless it fails, the choices don't fit the action that it calls, or that action's guard is
/// false.
pub fn answers_have_causes()
    ensures cause { AnswersHaveCauses }
    ensures answered { CausesAreAnswered }
{}
