//! Laws of the definitions, each the contract of a function that does nothing.
ghost use Rattle.civl_goal_losses.specs.Laws.{GoalLossesAreTold};
ghost use Rattle.civl_goal_losses.specs.examples.Reading.{GateIsFalse, ReadLeads};

/// A loss is told exactly where values violate a goal of an outline.
pub fn goal_losses_are_told()
    ensures { GoalLossesAreTold }
{}

/// A flag that is read and asserted.
pub fn flag()
    ensures gate { GateIsFalse }
    ensures leads { ReadLeads }
{}
