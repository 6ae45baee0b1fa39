//! What the rules on layers, cuts and the programs of layers are on worked examples, and how many cuts there are.
ghost use Rattle.civl_layers.specs.CutCounts.{CutsAreCounted, CutsBeforeAreCounted, CutsAreFew};
ghost use Rattle.civl_layers.specs.examples.Tower.{TowerStands};
ghost use Rattle.civl_layers.specs.examples.Range.{RangesOfItems, FirstOfAll};
ghost use Rattle.civl_layers.specs.examples.Hidden.{HiddenInActions, HiddenAtSteps};
ghost use Rattle.civl_layers.specs.examples.Calls.{CallsGoDown, ActionsAreThere};
ghost use Rattle.civl_layers.specs.examples.Introduced.{SignaturesAgree, IntrosBegin};
ghost use Rattle.civl_layers.specs.examples.Cuts.{CutsInOrder, BodiesOfLayers};

/// A program of two layers keeps all rules from E10 to E35.
pub fn tower_stands()
    ensures { TowerStands }
{}

/// E30: ranges of globals and actions, the steps of invariants, and the layers of procedures.
pub fn ranges_of_items()
    ensures { RangesOfItems }
{}

/// The order of codes comes first, then that of items, then that of statements.
pub fn first_of_all()
    ensures { FirstOfAll }
{}

/// E31: the globals that an action may use.
pub fn hidden_in_actions()
    ensures { HiddenInActions }
{}

/// E31: the globals that an invariant, and what a procedure says of the store, may use.
pub fn hidden_at_steps()
    ensures { HiddenAtSteps }
{}

/// E32: calls and spawns.
pub fn calls_go_down()
    ensures { CallsGoDown }
{}

/// E33: called, refined and run actions.
pub fn actions_are_there()
    ensures { ActionsAreThere }
{}

/// E34: the signatures of procedures.
pub fn signatures_agree()
    ensures { SignaturesAgree }
{}

/// E35: the targets of intros, and linear globals.
pub fn intros_begin()
    ensures { IntrosBegin }
{}

/// The cuts of procedures.
pub fn cuts_in_order()
    ensures { CutsInOrder }
{}

/// Procedures have as many cuts as E12 counts.
pub fn cuts_are_counted()
    ensures each { CutsAreCounted }
    ensures before { CutsBeforeAreCounted }
{}

/// There are no more cuts than E12 lets pass.
pub fn cuts_are_few()
    ensures { CutsAreFew }
{}

/// Which procedures mean their bodies in the programs of layers 0 to 2.
pub fn bodies_of_layers()
    ensures { BodiesOfLayers }
{}
