// What a first action does to the gate of a second one.
ghost use Rattle.std.specs.Prelude.{◌≡◌, ◌+◌, ◌*◌, ◌≤◌, slice_get, Some, IfOk, OnOk};
ghost use Rattle.civl_tree.specs.declared.expr.Sort.TheVariants.{Bool as Truth};
ghost use Rattle.civl_tree.specs.declared.action.Action.{Action};
ghost use Rattle.civl_tree.specs.rules.Rules.{Keeps};
ghost use Rattle.civl_tree.specs.rules.Typing.{typing_rules};
ghost use Rattle.civl_firing.specs.values.ActionWeights.{gate_weight, action_weight};
ghost use Rattle.civl_terms.specs.Graphs.{sort_at};
ghost use Rattle.civl_terms.specs.Building.{Grows};
ghost use Rattle.civl_terms.specs.Weights.{graph_weight};
ghost use Rattle.civl_conditions.specs.Movers as says;
ghost use Rattle.civl_states.specs.Runs.{IsReady};
ghost use Rattle.civl_states.specs.Stores.{AreGlobals};
ghost use Rattle.civl_movers.specs.Runs.{TellsTwo};

use crate::meeting::meet;
use civl_states::Invoked;
use civl_states::formula_parts::{all_of, negated};
use civl_terms::{Id, Memory, Terms};
use civl_tree::{List, Program};
use std::alloc::Global as Alloc;

/// Whether both gates are true and the first action fires, and then the gate of the second is false.
///
/// The graph's weight rises by at most that of the first action, twice that of the second one's gate, and 5.
///
/// # Errors
///
/// For want of memory; the nodes before stay.
pub fn spoils(
    alloc: Alloc,
    terms: &mut Terms,
    program: &Program,
    globals: &List<Id>,
    x: &Invoked,
    y: &Invoked,
) -> Result<Id, Memory>
    requires rules { Keeps typing_rules program.now }
    requires globals { AreGlobals terms.old program.now globals.now }
    requires x { IsReady terms.old program.now x.now }
    requires y { IsReady terms.old program.now y.now }
    ensures tells { IfOk result (λ id. TellsTwo terms.old terms.new program.now globals.now x.now y.now (says.spoils program.now) id) }
    ensures sorted { IfOk result (λ id. sort_at terms.new id ≡ Some Truth) }
    ensures weighs { OnOk result ((a b : Action) → slice_get program.now.actions x.now.action ≡ Some a → slice_get program.now.actions y.now.action ≡ Some b → graph_weight terms.new ≤ graph_weight terms.old + action_weight program.now a + 2 * gate_weight program.now b + 5) }
    ensures grows { Grows terms.old terms.new }
{
    let met = meet(alloc, terms, program, globals, x, y)?;
    let spoiled = negated(terms, met.later)?;
    let tests = [met.first.gate, met.before, met.first.guard, spoiled];
    let id = all_of(terms, tests.as_slice())?;
    Ok(id)
}

/// Whether the gate of the first action is true, that of the second false and the first fires, and then the second's is true.
///
/// The graph's weight rises by at most that of the first action, twice that of the second one's gate, and 5.
///
/// # Errors
///
/// For want of memory; the nodes before stay.
pub fn reveals(
    alloc: Alloc,
    terms: &mut Terms,
    program: &Program,
    globals: &List<Id>,
    x: &Invoked,
    y: &Invoked,
) -> Result<Id, Memory>
    requires rules { Keeps typing_rules program.now }
    requires globals { AreGlobals terms.old program.now globals.now }
    requires x { IsReady terms.old program.now x.now }
    requires y { IsReady terms.old program.now y.now }
    ensures tells { IfOk result (λ id. TellsTwo terms.old terms.new program.now globals.now x.now y.now (says.reveals program.now) id) }
    ensures sorted { IfOk result (λ id. sort_at terms.new id ≡ Some Truth) }
    ensures weighs { OnOk result ((a b : Action) → slice_get program.now.actions x.now.action ≡ Some a → slice_get program.now.actions y.now.action ≡ Some b → graph_weight terms.new ≤ graph_weight terms.old + action_weight program.now a + 2 * gate_weight program.now b + 5) }
    ensures grows { Grows terms.old terms.new }
{
    let met = meet(alloc, terms, program, globals, x, y)?;
    let hidden = negated(terms, met.before)?;
    let tests = [met.first.gate, hidden, met.first.guard, met.later];
    let id = all_of(terms, tests.as_slice())?;
    Ok(id)
}
