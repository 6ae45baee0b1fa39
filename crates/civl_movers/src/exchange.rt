// Whether two actions may be exchanged.
ghost use Rattle.std.specs.Prelude.{◌≡◌, ◌+◌, ◌-◌, ◌*◌, ◌≤◌, slice_get, Some, IfOk, OnOk};
ghost use Rattle.civl_tree.specs.declared.expr.Sort.TheVariants.{Bool as Truth};
ghost use Rattle.civl_tree.specs.declared.action.Action.{Action};
ghost use Rattle.civl_tree.specs.rules.Rules.{Keeps};
ghost use Rattle.civl_tree.specs.rules.Typing.{typing_rules};
ghost use Rattle.civl_firing.specs.values.ActionWeights.{action_weight};
ghost use Rattle.civl_terms.specs.Graphs.{sort_at};
ghost use Rattle.civl_terms.specs.Building.{Grows};
ghost use Rattle.civl_terms.specs.Weights.{graph_weight};
ghost use Rattle.civl_conditions.specs.Movers as says;
ghost use Rattle.civl_states.specs.Runs.{IsReady, out_sorts};
ghost use Rattle.civl_states.specs.Stores.{AreGlobals};
ghost use Rattle.civl_movers.specs.Runs.{TellsTwo};
ghost use Rattle.civl_states.specs.Same.{layer_sorts, same_weight};

use crate::ends::end_alike;
use crate::sequence::run_in_turn;
use civl_states::Invoked;
use civl_states::formula_parts::{all_of, negated};
use civl_terms::{Id, Memory, Terms};
use civl_tree::{List, Program};
use std::alloc::Global as Alloc;

/// Whether both gates are true, the first action fires and then the second with a true gate, and the other order doesn't come
/// to the same values of the globals of the step's lower layer and to the same outputs.
///
/// The graph's weight rises by at most twice that of both actions, that of comparing these globals and the outputs of both,
/// and 12.
///
/// # Errors
///
/// For want of memory; the nodes before stay.
pub fn clashes(
    alloc: Alloc,
    terms: &mut Terms,
    program: &Program,
    step: u32,
    globals: &List<Id>,
    x: &Invoked,
    y: &Invoked,
) -> Result<Id, Memory>
    requires rules { Keeps typing_rules program.now }
    requires globals { AreGlobals terms.old program.now globals.now }
    requires x { IsReady terms.old program.now x.now }
    requires y { IsReady terms.old program.now y.now }
    ensures tells { IfOk result (λ id. TellsTwo terms.old terms.new program.now globals.now x.now y.now (says.clashes program.now step) id) }
    ensures sorted { IfOk result (λ id. sort_at terms.new id ≡ Some Truth) }
    ensures weighs { OnOk result ((a b : Action) → slice_get program.now.actions x.now.action ≡ Some a → slice_get program.now.actions y.now.action ≡ Some b → graph_weight terms.new ≤ graph_weight terms.old + 2 * (action_weight program.now a + action_weight program.now b) + same_weight (layer_sorts program.now (step - 1)) + same_weight (out_sorts a) + same_weight (out_sorts b) + 12) }
    ensures grows { Grows terms.old terms.new }
{
    let there = run_in_turn(alloc, terms, program, globals, x, y)?;
    let back = run_in_turn(alloc, terms, program, globals, y, x)?;
    let layer = step.saturating_sub(1);
    let alike = end_alike(alloc, terms, program, layer, &there, &back)?;
    let differ = negated(terms, alike)?;
    let tests = [
        there.first.gate,
        back.first.gate,
        there.first.guard,
        there.second.gate,
        there.second.guard,
        differ,
    ];
    let id = all_of(terms, tests.as_slice())?;
    Ok(id)
}
