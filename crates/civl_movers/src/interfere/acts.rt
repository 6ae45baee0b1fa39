// K11: actions keep the invariants of the step.
ghost use Rattle.std.specs.Prelude.{◌≡◌, ◌+◌, ◌*◌, ◌≤◌, ◌<◌, [], length, slice_get, Some, IfOk, OnOk};
ghost use Rattle.civl_tree.specs.declared.expr.Sort.TheVariants.{Bool as Truth};
ghost use Rattle.civl_tree.specs.declared.action.Action.{Action};
ghost use Rattle.civl_tree.specs.rules.Rules.{Keeps};
ghost use Rattle.civl_tree.specs.rules.Typing.{typing_rules};
ghost use Rattle.civl_firing.specs.values.ActionWeights.{action_weight};
ghost use Rattle.civl_terms.specs.Graphs.{sort_at};
ghost use Rattle.civl_terms.specs.Building.{Grows, Lengthens};
ghost use Rattle.civl_terms.specs.Weights.{graph_weight};
ghost use Rattle.civl_conditions.specs.declared.condition.Condition.TheVariants.{Act};
ghost use Rattle.civl_conditions.specs.declared.condition.Target.TheVariants as target;
ghost use Rattle.civl_conditions.specs.Steps.{step_invariants};
ghost use Rattle.civl_conditions.specs.Invariants.{invariant_at};
ghost use Rattle.civl_conditions.specs.Weights.{lin, linear_globals, linear_inputs, weights_of, global_weight, maybe_weight, weight};
ghost use Rattle.civl_states.specs.formula_parts.Given.{AreVariablesOf};
ghost use Rattle.civl_states.specs.Stores.{AreGlobals};
ghost use Rattle.civl_states.specs.Runs.{IsReady};
ghost use Rattle.civl_states.specs.Formulas.{sorts_of, IsViolation};
ghost use Rattle.civl_movers.specs.interfere.Acting.{TellsActed};

use crate::interfere::acting::act;
use crate::interfere::starts::lost_at;
use civl_states::formula_parts::all_of;
use civl_states::{Existing, Invoked, existing_count, invocation, store};
use civl_terms::{Id, Memory, Terms};
use civl_tree::{List, Program, Sort};
use std::alloc::Global as Alloc;

/// Whether an action that begins where the invariants of a step hold, with what goes into it pairwise disjoint and its gate true,
/// fires and then the invariant at this place doesn't hold.
fn act_at(
    alloc: Alloc,
    terms: &mut Terms,
    program: &Program,
    step: u32,
    globals: &List<Id>,
    x: &Invoked,
    place: u32,
) -> Result<Id, Memory>
    requires rules { Keeps typing_rules program.now }
    requires globals { AreGlobals terms.old program.now globals.now }
    requires x { IsReady terms.old program.now x.now }
    ensures tells { IfOk result (λ id. TellsActed terms.old terms.new program.now step globals.now x.now (target.Invariant place) id) }
    ensures sorted { IfOk result (λ id. sort_at terms.new id ≡ Some Truth) }
    ensures weighs { OnOk result ((a : Action) → slice_get program.now.actions x.now.action ≡ Some a → graph_weight terms.new ≤ graph_weight terms.old + action_weight program.now a + 2 * weights_of (global_weight program.now) (step_invariants program.now step) + 4 * lin program.now (linear_globals program.now + linear_inputs a.params + 0) + 2 * maybe_weight (global_weight program.now) (invariant_at program.now step place) + 5) }
    ensures grows { Grows terms.old terms.new }
{
    let acting = act(alloc, terms, program, step, globals, x, &[])?;
    let lost = lost_at(terms, program, step, place, acting.made.globals.as_slice())?;
    let tests = [
        acting.holds,
        acting.made.gate,
        acting.apart,
        acting.made.guard,
        lost,
    ];
    let id = all_of(terms, tests.as_slice())?;
    Ok(id)
}

/// K11 for an invariant of the step: the action keeps the one at this place.
pub(crate) fn act_fails(
    alloc: Alloc,
    terms: &mut Terms,
    program: &Program,
    sorts: &[Sort],
    step: u32,
    action: u32,
    place: u32,
) -> Result<Id, Memory>
    requires rules { Keeps typing_rules program.now }
    requires action { action < length program.now.actions }
    requires sorts { sorts.now ≡ sorts_of program.now (Act step action (target.Invariant place)) }
    requires variables { AreVariablesOf terms.old sorts.now }
    ensures says { IfOk result (λ id. IsViolation terms.new id program.now (Act step action (target.Invariant place))) }
    ensures weighs { OnOk result (graph_weight terms.new ≤ graph_weight terms.old + 4 * weight program.now (Act step action (target.Invariant place))) }
    ensures lengthens { Lengthens terms.old terms.new }
{
    let globals = store(alloc, terms, program, sorts, Existing::Near(step), 0)?;
    let first = existing_count(program, Existing::Near(step)) as u32;
    let x = invocation(alloc, terms, program, sorts, action, first)?;
    let id = act_at(alloc, terms, program, step, &globals, &x, place)?;
    Ok(id)
}
