//! What conditions on actions say of states.
ghost use Rattle.civl_condition_laws.specs.States.{ActionsOfStates, PathsOfStates};

/// The conditions on actions that hold say of all states what they say of the values of their variables.
pub fn actions_of_states()
    ensures { ActionsOfStates }
{}

/// The conditions on paths, blocks and lasting actions that hold say so too.
pub fn paths_of_states()
    ensures { PathsOfStates }
{}
