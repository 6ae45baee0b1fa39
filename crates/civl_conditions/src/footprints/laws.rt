//! Laws of the definitions. Each function computes nothing; its clause is a theorem.
ghost use Rattle.civl_conditions.specs.footprints.Laws.{ValuesAgree, ActionsActAlike, ActionsKeepOthers, ActionsUseWhatExists};

/// An expression that uses none of some names has one value in two scopes that agree on all others.
pub fn values_agree()
    ensures { ValuesAgree }
{}

/// An action that uses none of some globals does the same in two stores that agree on all others.
pub fn actions_act_alike()
    ensures { ActionsActAlike }
{}

/// An action leaves the globals that aren't targets of its updates.
pub fn actions_keep_others()
    ensures { ActionsKeepOthers }
{}

/// In a layered program an action that exists in a layer uses no global that doesn't.
pub fn actions_use_what_exists()
    ensures { ActionsUseWhatExists }
{}
