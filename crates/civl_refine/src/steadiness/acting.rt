// Actions that lose what has to be kept.
ghost use Rattle.std.specs.Prelude.{◌≡◌, ◌+◌, ◌*◌, ◌≤◌, slice_get, Some, IfOk, OnOk};
ghost use Rattle.civl_tree.specs.declared.expr.Sort.TheVariants.{Bool as Truth};
ghost use Rattle.civl_tree.specs.declared.action.Action.{Action};
ghost use Rattle.civl_tree.specs.rules.Rules.{Keeps};
ghost use Rattle.civl_tree.specs.rules.Typing.{typing_rules};
ghost use Rattle.civl_firing.specs.values.ActionWeights.{action_weight};
ghost use Rattle.civl_terms.specs.Graphs.{sort_at};
ghost use Rattle.civl_terms.specs.Building.{Grows};
ghost use Rattle.civl_terms.specs.Weights.{graph_weight};
ghost use Rattle.civl_conditions.specs.Steps.{step_invariants};
ghost use Rattle.civl_conditions.specs.Weights.{lin, linear_globals, linear_inputs, weights_of, global_weight};
ghost use Rattle.civl_states.specs.Stores.{AreGlobals};
ghost use Rattle.civl_states.specs.Runs.{IsReady};
ghost use Rattle.civl_refine.specs.inner.steadiness.Kept.{CanKeep, words_count, kept_weight};
ghost use Rattle.civl_refine.specs.inner.steadiness.Losing.{TellsLost};

use crate::steadiness::kept::{Kept, target_lost, word_ids};
use civl_movers::interfere::act;
use civl_states::Invoked;
use civl_states::formula_parts::all_of;
use civl_terms::{Id, Memory, Terms};
use civl_tree::{List, Program};
use std::alloc::Global as Alloc;

/// Whether an action that begins where the invariants of a step hold, with what goes into it and what the other frame holds
/// pairwise disjoint and its gate true, fires and then loses what has to be kept.
pub(crate) fn act_loses(
    alloc: Alloc,
    terms: &mut Terms,
    program: &Program,
    step: u32,
    globals: &List<Id>,
    x: &Invoked,
    kept: &Kept<'_>,
) -> Result<Id, Memory>
    requires rules { Keeps typing_rules program.now }
    requires globals { AreGlobals terms.old program.now globals.now }
    requires x { IsReady terms.old program.now x.now }
    requires kept { CanKeep terms.old program.now kept.now }
    ensures tells { IfOk result (λ id. TellsLost terms.old terms.new program.now step globals.now x.now kept.now id) }
    ensures sorted { IfOk result (λ id. sort_at terms.new id ≡ Some Truth) }
    ensures weighs { OnOk result ((a : Action) → slice_get program.now.actions x.now.action ≡ Some a → graph_weight terms.new ≤ graph_weight terms.old + action_weight program.now a + 2 * weights_of (global_weight program.now) (step_invariants program.now step) + 4 * lin program.now (linear_globals program.now + linear_inputs a.params + words_count kept.now) + 2 * kept_weight program.now step kept.now + 7) }
    ensures grows { Grows terms.old terms.new }
{
    let owned = word_ids(alloc, kept)?;
    let acting = act(alloc, terms, program, step, globals, x, owned.as_slice())?;
    let lost = target_lost(
        alloc,
        terms,
        program,
        step,
        kept,
        globals,
        &acting.made.globals,
    )?;
    let tests = [
        acting.holds,
        acting.made.gate,
        acting.apart,
        acting.made.guard,
        lost,
    ];
    let id = all_of(terms, tests.as_slice())?;
    Ok(id)
}
