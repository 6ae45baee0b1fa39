// An action that runs beside other threads.
ghost use Rattle.std.specs.Prelude.{◌≡◌, ◌+◌, ◌*◌, ◌≤◌, All, length, slice_get, Some, IfOk, OnOk};
ghost use Rattle.civl_tree.specs.declared.expr.Sort.TheVariants.{Bool as Truth, Word};
ghost use Rattle.civl_tree.specs.declared.action.Action.{Action};
ghost use Rattle.civl_tree.specs.rules.Rules.{Keeps};
ghost use Rattle.civl_tree.specs.rules.Typing.{typing_rules};
ghost use Rattle.civl_firing.specs.values.ActionWeights.{action_weight};
ghost use Rattle.civl_terms.specs.Graphs.{sort_at};
ghost use Rattle.civl_terms.specs.Building.{Grows};
ghost use Rattle.civl_terms.specs.Weights.{graph_weight};
ghost use Rattle.civl_conditions.specs.Steps.{step_invariants};
ghost use Rattle.civl_conditions.specs.Weights.{lin, linear_globals, linear_inputs, weights_of, global_weight};
ghost use Rattle.civl_states.specs.Stores.{AreGlobals};
ghost use Rattle.civl_states.specs.Runs.{IsReady};
ghost use Rattle.civl_movers.specs.interfere.Acting.{TellsApart, IsActing};

use civl_actions::Instance;
use civl_states::{Invoked, incoming, invariants_at, run, with_words};
use civl_terms::{Id, Memory, Terms};
use civl_tree::{List, Program};
use std::alloc::Global as Alloc;

/// Whether what goes into an action, and these words beside it, are pairwise disjoint.
fn items_apart(
    alloc: Alloc,
    terms: &mut Terms,
    program: &Program,
    globals: &List<Id>,
    x: &Invoked,
    owned: &[Id],
) -> Result<Id, Memory>
    requires rules { Keeps typing_rules program.now }
    requires globals { AreGlobals terms.old program.now globals.now }
    requires x { IsReady terms.old program.now x.now }
    requires owned { All (λ i. sort_at terms.old i ≡ Some (Word program.now.permissions)) owned.now }
    ensures tells { IfOk result (λ id. TellsApart terms.old terms.new program.now globals.now x.now owned.now id) }
    ensures sorted { IfOk result (λ id. sort_at terms.new id ≡ Some Truth) }
    ensures weighs { OnOk result ((a : Action) → slice_get program.now.actions x.now.action ≡ Some a → graph_weight terms.new ≤ graph_weight terms.old + 4 * lin program.now (linear_globals program.now + linear_inputs a.params + length owned.now)) }
    ensures grows { Grows terms.old terms.new }
{
    let coming = incoming(alloc, terms, program, globals, x)?;
    let all = with_words(terms, program.permissions, coming, owned)?;
    Ok(all.apart)
}

/// What is assumed where an action begins beside other threads, and the terms of the action.
#[derive(Drop)]
pub struct Acting {
    pub holds: Id,
    pub apart: Id,
    pub made: Instance,
}

/// Whether the invariants of a step hold, whether what goes into an action and these words beside it are pairwise disjoint, and
/// the terms of the action.
///
/// # Errors
///
/// For want of memory; the nodes before stay.
pub fn act(
    alloc: Alloc,
    terms: &mut Terms,
    program: &Program,
    step: u32,
    globals: &List<Id>,
    x: &Invoked,
    owned: &[Id],
) -> Result<Acting, Memory>
    requires rules { Keeps typing_rules program.now }
    requires globals { AreGlobals terms.old program.now globals.now }
    requires x { IsReady terms.old program.now x.now }
    requires owned { All (λ i. sort_at terms.old i ≡ Some (Word program.now.permissions)) owned.now }
    ensures is { IfOk result (λ acting. IsActing terms.old terms.new program.now step globals.now x.now owned.now acting) }
    ensures holds { IfOk result (λ acting. sort_at terms.new acting.holds ≡ Some Truth) }
    ensures apart { IfOk result (λ acting. sort_at terms.new acting.apart ≡ Some Truth) }
    ensures gate { IfOk result (λ acting. sort_at terms.new acting.made.gate ≡ Some Truth) }
    ensures guard { IfOk result (λ acting. sort_at terms.new acting.made.guard ≡ Some Truth) }
    ensures store { IfOk result (λ acting. AreGlobals terms.new program.now acting.made.globals) }
    ensures weighs { OnOk result ((a : Action) → slice_get program.now.actions x.now.action ≡ Some a → graph_weight terms.new ≤ graph_weight terms.old + action_weight program.now a + 2 * weights_of (global_weight program.now) (step_invariants program.now step) + 4 * lin program.now (linear_globals program.now + linear_inputs a.params + length owned.now)) }
    ensures grows { Grows terms.old terms.new }
{
    let holds = invariants_at(terms, program, step, globals.as_slice())?;
    let apart = items_apart(alloc, terms, program, globals, x, owned)?;
    let made = run(alloc, terms, program, globals, x)?;
    Ok(Acting { holds, apart, made })
}
