// Two actions, the second one after the first.
ghost use Rattle.std.specs.Prelude.{◌≡◌, ◌+◌, ◌≤◌, slice_get, Some, IfOk, OnOk};
ghost use Rattle.civl_tree.specs.declared.action.Action.{Action};
ghost use Rattle.civl_tree.specs.rules.Rules.{Keeps};
ghost use Rattle.civl_tree.specs.rules.Typing.{typing_rules};
ghost use Rattle.civl_firing.specs.values.ActionWeights.{action_weight};
ghost use Rattle.civl_terms.specs.Building.{Grows};
ghost use Rattle.civl_terms.specs.Weights.{graph_weight};
ghost use Rattle.civl_actions.specs.Scopes.{AreOf};
ghost use Rattle.civl_states.specs.Runs.{IsReady, out_sorts};
ghost use Rattle.civl_states.specs.Stores.{AreGlobals};
ghost use Rattle.civl_movers.specs.Runs.{HaveRun, AreTested};

use civl_actions::Instance;
use civl_states::{Invoked, run};
use civl_terms::{Id, Memory, Terms};
use civl_tree::{List, Program};
use std::alloc::Global as Alloc;

/// The terms of a first action, and of a second one after it.
#[derive(Drop)]
pub struct Sequence {
    pub first: Instance,
    pub second: Instance,
}

/// The terms of a first action at terms of a store, and of a second one after it. The graph's weight rises by at most that of both.
///
/// # Errors
///
/// For want of memory; the nodes before stay.
pub fn run_in_turn(
    alloc: Alloc,
    terms: &mut Terms,
    program: &Program,
    globals: &List<Id>,
    x: &Invoked,
    y: &Invoked,
) -> Result<Sequence, Memory>
    requires rules { Keeps typing_rules program.now }
    requires globals { AreGlobals terms.old program.now globals.now }
    requires x { IsReady terms.old program.now x.now }
    requires y { IsReady terms.old program.now y.now }
    ensures ran { IfOk result (λ ran. HaveRun terms.old terms.new program.now globals.now x.now y.now ran) }
    ensures first { IfOk result (λ ran. AreTested terms.new ran.first) }
    ensures second { IfOk result (λ ran. AreTested terms.new ran.second) }
    ensures first_outs { IfOk result (λ ran. (a : Action) → slice_get program.now.actions x.now.action ≡ Some a → AreOf terms.new ran.first.outs (out_sorts a)) }
    ensures second_outs { IfOk result (λ ran. (b : Action) → slice_get program.now.actions y.now.action ≡ Some b → AreOf terms.new ran.second.outs (out_sorts b)) }
    ensures store { IfOk result (λ ran. AreGlobals terms.new program.now ran.second.globals) }
    ensures weighs { OnOk result ((a b : Action) → slice_get program.now.actions x.now.action ≡ Some a → slice_get program.now.actions y.now.action ≡ Some b → graph_weight terms.new ≤ graph_weight terms.old + action_weight program.now a + action_weight program.now b) }
    ensures grows { Grows terms.old terms.new }
{
    let first = run(alloc, terms, program, globals, x)?;
    let second = run(alloc, terms, program, &first.globals, y)?;
    Ok(Sequence { first, second })
}
