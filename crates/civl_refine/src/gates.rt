// The refined action's gate at a cut.
ghost use Rattle.std.specs.Prelude.{◌≡◌, ◌+◌, ◌≤◌, Bool, List, length, take, slice_get, true, false, Some, IfOk, OnOk, if◌then◌else◌};
ghost use Rattle.civl_bits.specs.declared.value.Value.{Value};
ghost use Rattle.civl_tree.specs.declared.expr.Sort.TheVariants.{Bool as Truth};
ghost use Rattle.civl_tree.specs.declared.action.Action.{Action};
ghost use Rattle.civl_tree.specs.rules.Rules.{Keeps};
ghost use Rattle.civl_tree.specs.rules.Typing.{typing_rules};
ghost use Rattle.civl_firing.specs.values.ActionWeights.{gate_weight};
ghost use Rattle.civl_firing.specs.declared.store.Store.{Store};
ghost use Rattle.civl_firing.specs.Fired.{gate_holds};
ghost use Rattle.civl_meaning.specs.Config.{frame_sorts};
ghost use Rattle.civl_terms.specs.Graphs.{sort_at};
ghost use Rattle.civl_terms.specs.Building.{Grows};
ghost use Rattle.civl_terms.specs.Weights.{graph_weight};
ghost use Rattle.civl_actions.specs.Scopes.{AreOf};
ghost use Rattle.civl_conditions.specs.paths.Ends.{is_entry, is_rank_loop};
ghost use Rattle.civl_conditions.specs.Assumed.{inputs_of, refined_gate};
ghost use Rattle.civl_states.specs.formula_parts.Said.{Env, IsTest};
ghost use Rattle.civl_states.specs.formula_parts.Lists.{AreSaid};
ghost use Rattle.civl_states.specs.Stores.{AreGlobals, AreStore};
ghost use Rattle.civl_refine.specs.Assuming.{IsRefined, gate_or_done};

use civl_layers::CutKind;
use civl_moves::implied;
use civl_states::formula_parts::{both, either};
use civl_states::gate_at;
use civl_terms::{Id, Memory, Terms};
use civl_tree::{List, Proc, Program};
use std::alloc::Global as Alloc;

/// The terms of the parameters among those of a frame.
pub(crate) fn input_ids(alloc: Alloc, proc: &Proc, locals: &List<Id>) -> Result<List<Id>, Memory>
    requires { length proc.now.params ≤ length locals.now }
    ensures { IfOk result (λ ids. ids ≡ take (length proc.now.params) locals.now) }
{
    let count = proc.params.len();
    let ids = Vec::from_slice(alloc, &locals.as_slice()[..count])?;
    Ok(List::from_vec(ids))
}

/// Whether the gate of the action that a procedure refines holds of these globals.
pub(crate) fn refined_gate(
    alloc: Alloc,
    terms: &mut Terms,
    program: &Program,
    proc: &Proc,
    refined: u32,
    globals: &List<Id>,
    locals: &List<Id>,
) -> Result<Id, Memory>
    requires rules { Keeps typing_rules program.now }
    requires refined { IsRefined program.now proc.now refined }
    requires globals { AreGlobals terms.old program.now globals.now }
    requires locals { AreOf terms.old locals.now (frame_sorts proc.now) }
    ensures test { IfOk result (λ id. (a : Action) (g : Env → Store) (v : Env → List Value) → slice_get program.now.actions refined ≡ Some a → AreStore terms.old program.now globals.now g → AreSaid terms.old locals.now (frame_sorts proc.now) v → IsTest terms.new id (λ env. gate_holds program.now.globals (g env) a (inputs_of proc.now (v env)))) }
    ensures sorted { IfOk result (λ id. sort_at terms.new id ≡ Some Truth) }
    ensures grows { Grows terms.old terms.new }
    ensures weighs { OnOk result ((a : Action) → slice_get program.now.actions refined ≡ Some a → graph_weight terms.new ≤ graph_weight terms.old + gate_weight program.now a) }
{
    let inputs = input_ids(alloc, proc, locals)?;
    let id = gate_at(alloc, terms, program, globals, refined, &inputs)?;
    Ok(id)
}

/// Whether a gate is true or `done` was, and `done` is true if it was: at a cut of this kind.
pub(crate) fn gate_or_done(
    terms: &mut Terms,
    kind: CutKind,
    old_done: Id,
    done: Id,
    gate: Id,
) -> Result<Id, Memory>
    requires old_done { sort_at terms.old old_done ≡ Some Truth }
    requires done { sort_at terms.old done ≡ Some Truth }
    requires gate { sort_at terms.old gate ≡ Some Truth }
    ensures test { IfOk result (λ id. (o d g : Env → Bool) → IsTest terms.old old_done o → IsTest terms.old done d → IsTest terms.old gate g → ((env : Env) → is_entry kind ≡ true → o env ≡ false) → ((env : Env) → is_rank_loop kind ≡ false → o env ≡ d env) → IsTest terms.new id (λ env. gate_or_done (o env) (d env) (g env))) }
    ensures sorted { IfOk result (λ id. sort_at terms.new id ≡ Some Truth) }
    ensures grows { Grows terms.old terms.new }
    ensures weighs { OnOk result (graph_weight terms.new ≤ graph_weight terms.old + (if is_entry kind then 0 else if is_rank_loop kind then 3 else 1)) }
{
    match kind {
        CutKind::Entry => Ok(gate),
        CutKind::Yield => {
            let id = either(terms, old_done, gate)?;
            Ok(id)
        }
        CutKind::YieldLoop => {
            let id = either(terms, old_done, gate)?;
            Ok(id)
        }
        CutKind::RankLoop => {
            let id = gate_and_done(terms, old_done, done, gate)?;
            Ok(id)
        }
    }
}

/// Whether a gate is true or `done` was, and `done` is true if it was.
fn gate_and_done(terms: &mut Terms, old_done: Id, done: Id, gate: Id) -> Result<Id, Memory>
    requires old_done { sort_at terms.old old_done ≡ Some Truth }
    requires done { sort_at terms.old done ≡ Some Truth }
    requires gate { sort_at terms.old gate ≡ Some Truth }
    ensures test { IfOk result (λ id. (o d g : Env → Bool) → IsTest terms.old old_done o → IsTest terms.old done d → IsTest terms.old gate g → IsTest terms.new id (λ env. gate_or_done (o env) (d env) (g env))) }
    ensures sorted { IfOk result (λ id. sort_at terms.new id ≡ Some Truth) }
    ensures grows { Grows terms.old terms.new }
    ensures weighs { OnOk result (graph_weight terms.new ≤ graph_weight terms.old + 3) }
{
    let gated = either(terms, old_done, gate)?;
    let stays = implied(terms, old_done, done)?;
    let id = both(terms, gated, stays)?;
    Ok(id)
}
