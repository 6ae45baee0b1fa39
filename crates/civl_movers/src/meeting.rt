// A first action, and the gate of a second one before and after it.
ghost use Rattle.std.specs.Prelude.{◌≡◌, ◌+◌, ◌*◌, ◌≤◌, slice_get, Some, IfOk, OnOk};
ghost use Rattle.civl_tree.specs.declared.expr.Sort.TheVariants.{Bool as Truth};
ghost use Rattle.civl_tree.specs.declared.action.Action.{Action};
ghost use Rattle.civl_tree.specs.rules.Rules.{Keeps};
ghost use Rattle.civl_tree.specs.rules.Typing.{typing_rules};
ghost use Rattle.civl_firing.specs.values.ActionWeights.{gate_weight, action_weight};
ghost use Rattle.civl_terms.specs.Graphs.{sort_at};
ghost use Rattle.civl_terms.specs.Building.{Grows};
ghost use Rattle.civl_terms.specs.Weights.{graph_weight};
ghost use Rattle.civl_states.specs.Runs.{IsReady};
ghost use Rattle.civl_states.specs.Stores.{AreGlobals};
ghost use Rattle.civl_movers.specs.Runs.{HaveMet};

use civl_actions::Instance;
use civl_states::{Invoked, gate_at, run};
use civl_terms::{Id, Memory, Terms};
use civl_tree::{List, Program};
use std::alloc::Global as Alloc;

/// The terms of a first action, of the second one's gate before it, and of that after it.
#[derive(Drop)]
pub struct Meeting {
    pub first: Instance,
    pub before: Id,
    pub later: Id,
}

/// The terms of a first action, of the second one's gate before it, and of that after it.
pub(crate) fn meet(
    alloc: Alloc,
    terms: &mut Terms,
    program: &Program,
    globals: &List<Id>,
    x: &Invoked,
    y: &Invoked,
) -> Result<Meeting, Memory>
    requires rules { Keeps typing_rules program.now }
    requires globals { AreGlobals terms.old program.now globals.now }
    requires x { IsReady terms.old program.now x.now }
    requires y { IsReady terms.old program.now y.now }
    ensures met { IfOk result (λ met. HaveMet terms.old terms.new program.now globals.now x.now y.now met) }
    ensures gate { IfOk result (λ met. sort_at terms.new met.first.gate ≡ Some Truth) }
    ensures guard { IfOk result (λ met. sort_at terms.new met.first.guard ≡ Some Truth) }
    ensures before { IfOk result (λ met. sort_at terms.new met.before ≡ Some Truth) }
    ensures later { IfOk result (λ met. sort_at terms.new met.later ≡ Some Truth) }
    ensures weighs { OnOk result ((a b : Action) → slice_get program.now.actions x.now.action ≡ Some a → slice_get program.now.actions y.now.action ≡ Some b → graph_weight terms.new ≤ graph_weight terms.old + action_weight program.now a + 2 * gate_weight program.now b) }
    ensures grows { Grows terms.old terms.new }
{
    let first = run(alloc, terms, program, globals, x)?;
    let before = gate_at(alloc, terms, program, globals, y.action, &y.inputs)?;
    let later = gate_at(alloc, terms, program, &first.globals, y.action, &y.inputs)?;
    Ok(Meeting {
        first,
        before,
        later,
    })
}
