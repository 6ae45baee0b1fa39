// What blocks and actions have to keep.
ghost use Rattle.std.specs.Prelude.{◌≡◌, ◌≤◌, ◌+◌, ◌*◌, ℕ, not, IfOk, OnOk, Some};
ghost use Rattle.civl_tree.specs.declared.expr.Sort.TheVariants.{Bool as Truth};
ghost use Rattle.civl_tree.specs.rules.Rules.{Keeps};
ghost use Rattle.civl_tree.specs.rules.Typing.{typing_rules};
ghost use Rattle.civl_firing.specs.declared.store.Store.{Store};
ghost use Rattle.civl_terms.specs.Graphs.{sort_at};
ghost use Rattle.civl_terms.specs.Building.{Grows};
ghost use Rattle.civl_terms.specs.Weights.{graph_weight};
ghost use Rattle.civl_conditions.specs.Invariants.{invariant_at, invariant_lost};
ghost use Rattle.civl_conditions.specs.Targets.{Other};
ghost use Rattle.civl_conditions.specs.Weights.{global_weight, maybe_weight};
ghost use Rattle.civl_states.specs.formula_parts.Said.{Env, IsTest};
ghost use Rattle.civl_states.specs.Stores.{AreGlobals, AreStore};
ghost use Rattle.civl_refine.specs.inner.steadiness.Kept.{CanKeep, SaysOther, kept_before, kept_after, is_lost, word_ids, WordsWithin, kept_weight};

use crate::held_ids;
use crate::steadiness::yielding::{Frame, Yielding, yield_kept};
use civl_bits::Value;
use civl_movers::interfere::invariant_at;
use civl_states::formula_parts::{both, negated};
use civl_states::global_note;
use civl_terms::{Id, Memory, Terms};
use civl_tree::{List, Program};
use std::alloc::Global as Alloc;

/// What has to be kept: an invariant of the step, by its place among those of the step; or the invariant of a yield, with another
/// thread's frame there.
#[derive(Drop)]
pub(crate) enum Kept<'a> {
    Invariant(u32),
    Yield(Yielding<'a>, Frame),
}

/// Whether the invariant of a step at this place holds; where there is none, it does.
fn invariant_kept(
    terms: &mut Terms,
    program: &Program,
    step: u32,
    place: u32,
    globals: &[Id],
) -> Result<Id, Memory>
    requires rules { Keeps typing_rules program.now }
    requires globals { AreGlobals terms.old program.now globals.now }
    ensures tells { IfOk result (λ id. (g : Env → Store) → AreStore terms.old program.now globals.now g → IsTest terms.new id (λ env. not (invariant_lost program.now step place (g env)))) }
    ensures sorted { IfOk result (λ id. sort_at terms.new id ≡ Some Truth) }
    ensures grows { Grows terms.old terms.new }
    ensures weighs { OnOk result (graph_weight terms.new ≤ graph_weight terms.old + maybe_weight (global_weight program.now) (invariant_at program.now step place)) }
{
    match invariant_at(program, step, place) {
        Some(expr) => {
            let id = global_note(terms, program, expr, globals)?;
            Ok(id)
        }
        None => {
            let id = terms.constant(Value::Bool(true))?;
            Ok(id)
        }
    }
}

/// Whether what has to be kept was so before, at these globals; of an invariant of the step nothing is asked.
pub(crate) fn kept_before(
    alloc: Alloc,
    terms: &mut Terms,
    program: &Program,
    kept: &Kept<'_>,
    globals: &List<Id>,
) -> Result<Id, Memory>
    requires rules { Keeps typing_rules program.now }
    requires kept { CanKeep terms.old program.now kept.now }
    requires globals { AreGlobals terms.old program.now globals.now }
    ensures tells { IfOk result (λ id. (o : Env → Other) (g : Env → Store) → SaysOther terms.old kept.now o → AreStore terms.old program.now globals.now g → IsTest terms.new id (λ env. kept_before program.now kept.now (o env) (g env))) }
    ensures sorted { IfOk result (λ id. sort_at terms.new id ≡ Some Truth) }
    ensures grows { Grows terms.old terms.new }
    ensures weighs { OnOk result ((step : ℕ) → graph_weight terms.new ≤ graph_weight terms.old + kept_weight program.now step kept.now) }
{
    match kept {
        Kept::Invariant(_) => {
            let id = terms.constant(Value::Bool(true))?;
            Ok(id)
        }
        Kept::Yield(place, frame) => {
            let id = yield_kept(alloc, terms, program, place, frame, globals)?;
            Ok(id)
        }
    }
}

/// Whether what has to be kept is so after, at these globals.
pub(crate) fn kept_after(
    alloc: Alloc,
    terms: &mut Terms,
    program: &Program,
    step: u32,
    kept: &Kept<'_>,
    globals: &List<Id>,
) -> Result<Id, Memory>
    requires rules { Keeps typing_rules program.now }
    requires kept { CanKeep terms.old program.now kept.now }
    requires globals { AreGlobals terms.old program.now globals.now }
    ensures tells { IfOk result (λ id. (o : Env → Other) (g : Env → Store) → SaysOther terms.old kept.now o → AreStore terms.old program.now globals.now g → IsTest terms.new id (λ env. kept_after program.now step kept.now (o env) (g env))) }
    ensures sorted { IfOk result (λ id. sort_at terms.new id ≡ Some Truth) }
    ensures grows { Grows terms.old terms.new }
    ensures weighs { OnOk result (graph_weight terms.new ≤ graph_weight terms.old + kept_weight program.now step kept.now) }
{
    match kept {
        Kept::Invariant(place) => {
            let id = invariant_kept(terms, program, step, *place, globals.as_slice())?;
            Ok(id)
        }
        Kept::Yield(place, frame) => {
            let id = yield_kept(alloc, terms, program, place, frame, globals)?;
            Ok(id)
        }
    }
}

/// Whether what has to be kept is lost between two stores.
pub(crate) fn target_lost(
    alloc: Alloc,
    terms: &mut Terms,
    program: &Program,
    step: u32,
    kept: &Kept<'_>,
    before: &List<Id>,
    after: &List<Id>,
) -> Result<Id, Memory>
    requires rules { Keeps typing_rules program.now }
    requires kept { CanKeep terms.old program.now kept.now }
    requires before { AreGlobals terms.old program.now before.now }
    requires after { AreGlobals terms.old program.now after.now }
    ensures tells { IfOk result (λ id. (o : Env → Other) (g h : Env → Store) → SaysOther terms.old kept.now o → AreStore terms.old program.now before.now g → AreStore terms.old program.now after.now h → IsTest terms.new id (λ env. is_lost program.now step kept.now (o env) (g env) (h env))) }
    ensures sorted { IfOk result (λ id. sort_at terms.new id ≡ Some Truth) }
    ensures grows { Grows terms.old terms.new }
    ensures weighs { OnOk result (graph_weight terms.new ≤ graph_weight terms.old + 2 * kept_weight program.now step kept.now + 2) }
{
    let first = kept_before(alloc, terms, program, kept, before)?;
    let then = kept_after(alloc, terms, program, step, kept, after)?;
    let fails = negated(terms, then)?;
    let id = both(terms, first, fails)?;
    Ok(id)
}

/// The terms of the words that the other thread's frame holds.
pub(crate) fn word_ids(alloc: Alloc, kept: &Kept<'_>) -> Result<Vec<Id>, Memory>
    requires { WordsWithin kept.now }
    ensures { IfOk result (λ ids. ids.items ≡ word_ids kept.now) }
{
    match kept {
        Kept::Invariant(_) => Ok(Vec::new(alloc)),
        Kept::Yield(place, frame) => held_ids(alloc, frame.locals.as_slice(), place.held),
    }
}
