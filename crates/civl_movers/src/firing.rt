// Whether an action fires with the choices that it offers.
ghost use Rattle.std.specs.Prelude.{◌≡◌, ◌+◌, ◌≤◌, slice_get, Some, IfOk, OnOk};
ghost use Rattle.civl_tree.specs.declared.expr.Sort.TheVariants.{Bool as Truth};
ghost use Rattle.civl_tree.specs.declared.action.Action.{Action};
ghost use Rattle.civl_tree.specs.rules.Rules.{Keeps};
ghost use Rattle.civl_tree.specs.rules.Typing.{typing_rules};
ghost use Rattle.civl_firing.specs.values.ActionWeights.{gate_weight, guard_weight, offers_weight};
ghost use Rattle.civl_terms.specs.Graphs.{sort_at};
ghost use Rattle.civl_terms.specs.Building.{Grows};
ghost use Rattle.civl_terms.specs.Weights.{graph_weight};
ghost use Rattle.civl_states.specs.Runs.{HasInputs, TellsInputs};
ghost use Rattle.civl_states.specs.Stores.{AreGlobals};
ghost use Rattle.civl_movers.specs.Runs.{guard_offered, waits_at};

use civl_actions::{guard, offers};
use civl_states::formula_parts::{both, negated};
use civl_states::gate_at;
use civl_terms::{Id, Memory, Terms};
use civl_tree::{List, Program};
use std::alloc::Global as Alloc;

/// The guard of an action, at the choices that it offers.
fn offered_guard(
    alloc: Alloc,
    terms: &mut Terms,
    program: &Program,
    globals: &List<Id>,
    action: u32,
    inputs: &List<Id>,
) -> Result<Id, Memory>
    requires rules { Keeps typing_rules program.now }
    requires globals { AreGlobals terms.old program.now globals.now }
    requires inputs { HasInputs terms.old program.now action inputs.now }
    ensures guard { IfOk result (λ id. TellsInputs terms.old terms.new program.now globals.now action inputs.now (guard_offered program.now) id) }
    ensures sorted { IfOk result (λ id. sort_at terms.new id ≡ Some Truth) }
    ensures weighs { OnOk result ((a : Action) → slice_get program.now.actions action ≡ Some a → graph_weight terms.new ≤ graph_weight terms.old + offers_weight program.now a + guard_weight program.now a) }
    ensures grows { Grows terms.old terms.new }
{
    let offered = offers(alloc, terms, program, action, globals, inputs)?;
    let id = guard(alloc, terms, program, action, globals, inputs, &offered)?;
    Ok(id)
}

/// Whether the gate of an action is true, and with the choices that it offers its guard is false.
///
/// The graph's weight rises by at most that of the gate, the offers and the guard, and 2.
///
/// # Errors
///
/// For want of memory; the nodes before stay.
pub fn waits(
    alloc: Alloc,
    terms: &mut Terms,
    program: &Program,
    globals: &List<Id>,
    action: u32,
    inputs: &List<Id>,
) -> Result<Id, Memory>
    requires rules { Keeps typing_rules program.now }
    requires globals { AreGlobals terms.old program.now globals.now }
    requires inputs { HasInputs terms.old program.now action inputs.now }
    ensures tells { IfOk result (λ id. TellsInputs terms.old terms.new program.now globals.now action inputs.now (waits_at program.now) id) }
    ensures sorted { IfOk result (λ id. sort_at terms.new id ≡ Some Truth) }
    ensures weighs { OnOk result ((a : Action) → slice_get program.now.actions action ≡ Some a → graph_weight terms.new ≤ graph_weight terms.old + gate_weight program.now a + offers_weight program.now a + guard_weight program.now a + 2) }
    ensures grows { Grows terms.old terms.new }
{
    let gate = gate_at(alloc, terms, program, globals, action, inputs)?;
    let guarded = offered_guard(alloc, terms, program, globals, action, inputs)?;
    let waiting = negated(terms, guarded)?;
    let id = both(terms, gate, waiting)?;
    Ok(id)
}
