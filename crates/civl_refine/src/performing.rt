// Whether a block with a new commit is one step of the refined action.
ghost use Rattle.std.specs.Prelude.{◌≡◌, ◌+◌, ◌*◌, ◌≤◌, ◌||◌, not, List, Some, slice_get, IfOk, OnOk};
ghost use Rattle.civl_bits.specs.declared.value.Value.{Value};
ghost use Rattle.civl_tree.specs.declared.expr.Sort.TheVariants.{Bool as Truth};
ghost use Rattle.civl_tree.specs.declared.action.Action.{Action};
ghost use Rattle.civl_tree.specs.rules.Uses.{param_sorts};
ghost use Rattle.civl_firing.specs.values.ActionWeights.{guard_weight, updates_weight};
ghost use Rattle.civl_firing.specs.Eval.{values_of};
ghost use Rattle.civl_meaning.specs.Config.{choice_sorts};
ghost use Rattle.civl_terms.specs.Graphs.{sort_at};
ghost use Rattle.civl_terms.specs.Building.{Grows};
ghost use Rattle.civl_terms.specs.Weights.{graph_weight};
ghost use Rattle.civl_actions.specs.Scopes.{AreOf};
ghost use Rattle.civl_conditions.specs.paths.NoteValues.{plain_note_values};
ghost use Rattle.civl_conditions.specs.paths.Paths.{Progress};
ghost use Rattle.civl_conditions.specs.Assumed.{with_of};
ghost use Rattle.civl_conditions.specs.Values.{Begun};
ghost use Rattle.civl_conditions.specs.Weights.{result_bits, weights_of, note_weight};
ghost use Rattle.civl_states.specs.formula_parts.Said.{Env, IsTest};
ghost use Rattle.civl_states.specs.formula_parts.Lists.{AreSaid};
ghost use Rattle.civl_states.specs.Stores.{AreGlobals};
ghost use Rattle.civl_states.specs.Beginnings.{AreBegun, CanBegin};
ghost use Rattle.civl_body.specs.Walks.{CanEnd};
ghost use Rattle.civl_refine.specs.Assuming.{IsStart};
ghost use Rattle.civl_refine.specs.Judging.{IsAt, Performs, comes_to, with_values};

use crate::gates::input_ids;
use crate::results::same_outs;
use crate::start::Start;
use crate::steady::plain_note;
use civl_actions::{Changed, guard, updates};
use civl_body::Way;
use civl_moves::implied;
use civl_states::formula_parts::{both, either};
use civl_states::{Beginning, same_globals};
use civl_terms::{Id, Memory, Terms};
use civl_tree::{Expr, List as Ids, Refines};
use std::alloc::Global as Alloc;

/// The expressions behind `with`.
fn with_of<'a>(refines: &'a Option<Refines>) -> &'a [Expr]
    ensures { result.now ≡ with_of refines.now }
{
    match refines {
        Some(refines) => refines.with.as_slice(),
        None => &[],
    }
}

/// The terms of the values behind `with`, which stand for the refined action's choices.
fn with_terms(
    alloc: Alloc,
    terms: &mut Terms,
    start: &Start<'_>,
    way: &Way,
) -> Result<Ids<Id>, Memory>
    requires start { IsStart start.now }
    requires ends { CanEnd terms.old start.now.program.now start.now.proc.now way.now }
    ensures said { IfOk result (λ ids. (a : Action) (p : Env → Progress) → slice_get start.now.program.now.actions start.now.refined ≡ Some a → IsAt terms.old start.now.program.now start.now.proc.now way.now p → AreSaid terms.new ids (choice_sorts a) (λ env. values_of (plain_note_values start.now.program.now.globals start.now.proc.now (p env).store (p env).locals) (with_of start.now.proc.now.refines))) }
    ensures sorted { IfOk result (λ ids. (a : Action) → slice_get start.now.program.now.actions start.now.refined ≡ Some a → AreOf terms.new ids (choice_sorts a)) }
    ensures grows { Grows terms.old terms.new }
    ensures weighs { OnOk result (graph_weight terms.new ≤ graph_weight terms.old + weights_of (note_weight start.now.program.now start.now.proc.now) (with_of start.now.proc.now.refines)) }
{
    let mut ids = Vec::new(alloc);
    for expr in with_of(&start.proc.refines) {
        let id = plain_note(
            alloc,
            terms,
            start.program,
            start.proc,
            expr,
            &way.globals,
            &way.locals,
        )?;
        ids.push(id)?;
    }
    Ok(Ids::from_vec(ids))
}

/// What the refined action does: its guard, and what its updates give.
#[derive(Drop)]
struct Performed {
    guard: Id,
    changed: Changed,
}

/// What the refined action does in the old globals, with these choices.
fn perform(
    alloc: Alloc,
    terms: &mut Terms,
    start: &Start<'_>,
    beginning: &Beginning,
    choices: &Ids<Id>,
) -> Result<Performed, Memory>
    requires start { IsStart start.now }
    requires begins { CanBegin terms.old start.now.program.now start.now.step start.now.proc.now start.now.cut beginning.now }
    requires choices { (a : Action) → slice_get start.now.program.now.actions start.now.refined ≡ Some a → AreOf terms.old choices.now (choice_sorts a) }
    ensures performs { IfOk result (λ d. (a : Action) (b : Env → Begun) (c : Env → List Value) → slice_get start.now.program.now.actions start.now.refined ≡ Some a → AreBegun terms.old start.now.program.now start.now.step start.now.proc.now start.now.cut beginning.now b → AreSaid terms.old choices.now (choice_sorts a) c → Performs terms.new start.now.program.now start.now.proc.now a b c d) }
    ensures guard { IfOk result (λ d. sort_at terms.new d.guard ≡ Some Truth) }
    ensures globals { IfOk result (λ d. AreGlobals terms.new start.now.program.now d.changed.globals) }
    ensures outs { IfOk result (λ d. AreOf terms.new d.changed.outs (param_sorts start.now.proc.now.outs)) }
    ensures grows { Grows terms.old terms.new }
    ensures weighs { OnOk result ((a : Action) → slice_get start.now.program.now.actions start.now.refined ≡ Some a → graph_weight terms.new ≤ graph_weight terms.old + guard_weight start.now.program.now a + updates_weight start.now.program.now a) }
{
    let inputs = input_ids(alloc, start.proc, &beginning.locals)?;
    let guard = guard(
        alloc,
        terms,
        start.program,
        start.refined,
        &beginning.old_globals,
        &inputs,
        choices,
    )?;
    let changed = updates(
        alloc,
        terms,
        start.program,
        start.refined,
        &beginning.old_globals,
        &inputs,
        choices,
    )?;
    Ok(Performed { guard, changed })
}

/// Whether the globals of the upper program and the outputs at the end of a path are those that the action gives, and its guard
/// holds.
fn is_performed(
    alloc: Alloc,
    terms: &mut Terms,
    start: &Start<'_>,
    performed: &Performed,
    way: &Way,
) -> Result<Id, Memory>
    requires start { IsStart start.now }
    requires ends { CanEnd terms.old start.now.program.now start.now.proc.now way.now }
    requires guard { sort_at terms.old performed.now.guard ≡ Some Truth }
    requires globals { AreGlobals terms.old start.now.program.now performed.now.changed.globals }
    requires outs { AreOf terms.old performed.now.changed.outs (param_sorts start.now.proc.now.outs) }
    ensures test { IfOk result (λ id. (a : Action) (b : Env → Begun) (c : Env → List Value) (p : Env → Progress) → Performs terms.old start.now.program.now start.now.proc.now a b c performed.now → IsAt terms.old start.now.program.now start.now.proc.now way.now p → IsTest terms.new id (λ env. comes_to start.now.program.now start.now.step start.now.proc.now a (b env) (c env) (p env))) }
    ensures sorted { IfOk result (λ id. sort_at terms.new id ≡ Some Truth) }
    ensures grows { Grows terms.old terms.new }
    ensures weighs { OnOk result (graph_weight terms.new ≤ graph_weight terms.old + 2 * result_bits start.now.program.now start.now.step start.now.proc.now + 2) }
{
    let stores = same_globals(
        alloc,
        terms,
        start.program,
        start.step,
        &way.globals,
        &performed.changed.globals,
    )?;
    let outs = same_outs(
        alloc,
        terms,
        start.proc,
        &way.locals,
        &performed.changed.outs,
    )?;
    let same = both(terms, stores, outs)?;
    let id = both(terms, performed.guard, same)?;
    Ok(id)
}

/// Perform: whether a block with a new commit is one step of the refined action from the old globals, with the values behind `with`
/// for its choices.
pub(crate) fn perform_kept(
    alloc: Alloc,
    terms: &mut Terms,
    start: &Start<'_>,
    beginning: &Beginning,
    way: &Way,
) -> Result<Id, Memory>
    requires start { IsStart start.now }
    requires begins { CanBegin terms.old start.now.program.now start.now.step start.now.proc.now start.now.cut beginning.now }
    requires ends { CanEnd terms.old start.now.program.now start.now.proc.now way.now }
    ensures test { IfOk result (λ id. (a : Action) (b : Env → Begun) (p : Env → Progress) → slice_get start.now.program.now.actions start.now.refined ≡ Some a → AreBegun terms.old start.now.program.now start.now.step start.now.proc.now start.now.cut beginning.now b → IsAt terms.old start.now.program.now start.now.proc.now way.now p → IsTest terms.new id (λ env. not (p env).done || ((b env).old_done || comes_to start.now.program.now start.now.step start.now.proc.now a (b env) (with_values start.now.program.now start.now.proc.now (p env)) (p env)))) }
    ensures sorted { IfOk result (λ id. sort_at terms.new id ≡ Some Truth) }
    ensures grows { Grows terms.old terms.new }
    ensures weighs { OnOk result ((a : Action) → slice_get start.now.program.now.actions start.now.refined ≡ Some a → graph_weight terms.new ≤ graph_weight terms.old + weights_of (note_weight start.now.program.now start.now.proc.now) (with_of start.now.proc.now.refines) + guard_weight start.now.program.now a + updates_weight start.now.program.now a + 2 * result_bits start.now.program.now start.now.step start.now.proc.now + 4) }
{
    let choices = with_terms(alloc, terms, start, way)?;
    let performed = perform(alloc, terms, start, beginning, &choices)?;
    let same = is_performed(alloc, terms, start, &performed, way)?;
    let free = either(terms, beginning.old_done, same)?;
    let id = implied(terms, way.done, free)?;
    Ok(id)
}
