// The terms of an action at terms of a store.
ghost use Rattle.std.specs.Prelude.{◌≡◌, ◌+◌, ◌≤◌, slice_get, Some, IfOk, OnOk};
ghost use Rattle.civl_tree.specs.declared.expr.Sort.TheVariants.{Bool as Truth};
ghost use Rattle.civl_tree.specs.declared.action.Action.{Action};
ghost use Rattle.civl_tree.specs.rules.Rules.{Keeps};
ghost use Rattle.civl_tree.specs.rules.Typing.{typing_rules};
ghost use Rattle.civl_firing.specs.values.ActionWeights.{gate_weight, action_weight};
ghost use Rattle.civl_terms.specs.Graphs.{sort_at};
ghost use Rattle.civl_terms.specs.Building.{Grows};
ghost use Rattle.civl_terms.specs.Weights.{graph_weight};
ghost use Rattle.civl_actions.specs.Scopes.{AreOf};
ghost use Rattle.civl_states.specs.Runs.{HasInputs, IsReady, Runs, TellsGate, out_sorts};
ghost use Rattle.civl_states.specs.Stores.{AreGlobals};

use crate::invoked::Invoked;
use civl_actions::{Instance, gate, instance};
use civl_terms::{Id, Memory, Terms};
use civl_tree::{List, Program};
use std::alloc::Global as Alloc;

/// The terms of an action at terms of a store. The graph's weight rises by at most the action's.
///
/// # Errors
///
/// For want of memory; the nodes before stay.
pub fn run(
    alloc: Alloc,
    terms: &mut Terms,
    program: &Program,
    globals: &List<Id>,
    x: &Invoked,
) -> Result<Instance, Memory>
    requires rules { Keeps typing_rules program.now }
    requires globals { AreGlobals terms.old program.now globals.now }
    requires x { IsReady terms.old program.now x.now }
    ensures runs { IfOk result (λ made. Runs terms.old terms.new program.now globals.now x.now made) }
    ensures gate { IfOk result (λ made. sort_at terms.new made.gate ≡ Some Truth) }
    ensures guard { IfOk result (λ made. sort_at terms.new made.guard ≡ Some Truth) }
    ensures store { IfOk result (λ made. AreGlobals terms.new program.now made.globals) }
    ensures outs { IfOk result (λ made. (a : Action) → slice_get program.now.actions x.now.action ≡ Some a → AreOf terms.new made.outs (out_sorts a)) }
    ensures weighs { OnOk result ((a : Action) → slice_get program.now.actions x.now.action ≡ Some a → graph_weight terms.new ≤ graph_weight terms.old + action_weight program.now a) }
    ensures grows { Grows terms.old terms.new }
{
    let made = instance(
        alloc, terms, program, x.action, globals, &x.inputs, &x.choices,
    )?;
    Ok(made)
}

/// The term of an action's gate at terms of a store. The graph's weight rises by at most the gate's.
///
/// # Errors
///
/// For want of memory; the nodes before stay.
pub fn gate_at(
    alloc: Alloc,
    terms: &mut Terms,
    program: &Program,
    globals: &List<Id>,
    action: u32,
    inputs: &List<Id>,
) -> Result<Id, Memory>
    requires rules { Keeps typing_rules program.now }
    requires globals { AreGlobals terms.old program.now globals.now }
    requires inputs { HasInputs terms.old program.now action inputs.now }
    ensures gate { IfOk result (λ id. TellsGate terms.old terms.new program.now globals.now action inputs.now id) }
    ensures sorted { IfOk result (λ id. sort_at terms.new id ≡ Some Truth) }
    ensures weighs { OnOk result ((b : Action) → slice_get program.now.actions action ≡ Some b → graph_weight terms.new ≤ graph_weight terms.old + gate_weight program.now b) }
    ensures grows { Grows terms.old terms.new }
{
    let id = gate(alloc, terms, program, action, globals, inputs)?;
    Ok(id)
}
