// What is assumed at a cut.
ghost use Rattle.std.specs.Prelude.{◌≡◌, ◌+◌, ◌*◌, ◌≤◌, ◌&&◌, Some, IfOk, OnOk, IfSome, length, if◌then◌else◌};
ghost use Rattle.civl_tree.specs.declared.expr.Sort.TheVariants.{Bool as Truth};
ghost use Rattle.civl_meaning.specs.Permissions.{pairwise_disjoint};
ghost use Rattle.civl_terms.specs.Graphs.{sort_at};
ghost use Rattle.civl_terms.specs.Building.{Grows};
ghost use Rattle.civl_terms.specs.Weights.{graph_weight};
ghost use Rattle.civl_conditions.specs.paths.Ends.{is_entry, is_rank_loop};
ghost use Rattle.civl_conditions.specs.Assumed as says;
ghost use Rattle.civl_conditions.specs.Values.{Begun};
ghost use Rattle.civl_conditions.specs.Weights.{base_weight, lin, linear_globals};
ghost use Rattle.civl_firing.specs.values.ActionWeights.{gate_weight};
ghost use Rattle.civl_states.specs.formula_parts.Said.{Env, IsTest};
ghost use Rattle.civl_states.specs.Beginnings.{AreBegun, CanBegin};
ghost use Rattle.civl_refine.specs.Assuming.{IsStart, BeginsAt, gate_or_done};

use crate::gates::{gate_or_done, refined_gate};
use crate::invariants::{with_invariants, with_note};
use crate::owned::owned_apart;
use crate::start::Start;
use civl_states::formula_parts::both;
use civl_states::{Beginning, View};
use civl_terms::{Id, Memory, Terms};
use std::alloc::Global as Alloc;

/// What a note at a path's beginning sees.
fn view_of<'a>(beginning: &'a Beginning) -> View<'a>
    ensures globals { result.globals.now ≡ beginning.now.globals }
    ensures locals { result.locals.now ≡ beginning.now.locals }
    ensures done { result.done ≡ beginning.now.done }
    ensures old_globals { result.old_globals.now ≡ beginning.now.old_globals }
    ensures old_outs { result.old_outs.now ≡ beginning.now.old_outs }
    ensures old_done { result.old_done ≡ beginning.now.old_done }
{
    View {
        globals: beginning.globals.as_slice(),
        locals: beginning.locals.as_slice(),
        done: beginning.done,
        old_globals: beginning.old_globals.as_slice(),
        old_outs: beginning.old_outs.as_slice(),
        old_done: beginning.old_done,
    }
}

/// Whether the refined action's gate holds or old `done` is true, and `done` is true if it was.
fn begun_gate(
    alloc: Alloc,
    terms: &mut Terms,
    start: &Start<'_>,
    beginning: &Beginning,
) -> Result<Id, Memory>
    requires start { IsStart start.now }
    requires begins { CanBegin terms.old start.now.program.now start.now.step start.now.proc.now start.now.cut beginning.now }
    ensures test { IfOk result (λ id. (b : Env → Begun) → ((env : Env) → BeginsAt start.now.cut.kind (b env)) → AreBegun terms.old start.now.program.now start.now.step start.now.proc.now start.now.cut beginning.now b → IsTest terms.new id (λ env. gate_or_done (b env).old_done (b env).done (says.refined_gate start.now.program.now start.now.proc.now (b env)))) }
    ensures sorted { IfOk result (λ id. sort_at terms.new id ≡ Some Truth) }
    ensures grows { Grows terms.old terms.new }
    ensures weighs { OnOk result (IfSome (says.refined_action start.now.program.now start.now.proc.now) (λ a. graph_weight terms.new ≤ graph_weight terms.old + gate_weight start.now.program.now a + (if is_entry start.now.cut.kind then 0 else if is_rank_loop start.now.cut.kind then 3 else 1))) }
{
    let gate = refined_gate(
        alloc,
        terms,
        start.program,
        start.proc,
        start.refined,
        &beginning.old_globals,
        &beginning.locals,
    )?;
    let id = gate_or_done(
        terms,
        start.cut.kind,
        beginning.old_done,
        beginning.done,
        gate,
    )?;
    Ok(id)
}

/// Whether what is owned is apart, and the refined action's gate holds or `done` was true.
fn owned_and_gated(
    alloc: Alloc,
    terms: &mut Terms,
    start: &Start<'_>,
    beginning: &Beginning,
) -> Result<Id, Memory>
    requires start { IsStart start.now }
    requires begins { CanBegin terms.old start.now.program.now start.now.step start.now.proc.now start.now.cut beginning.now }
    ensures test { IfOk result (λ id. (b : Env → Begun) → ((env : Env) → BeginsAt start.now.cut.kind (b env)) → AreBegun terms.old start.now.program.now start.now.step start.now.proc.now start.now.cut beginning.now b → IsTest terms.new id (λ env. pairwise_disjoint (says.owned start.now.program.now start.now.proc.now start.now.number (b env)) && gate_or_done (b env).old_done (b env).done (says.refined_gate start.now.program.now start.now.proc.now (b env)))) }
    ensures sorted { IfOk result (λ id. sort_at terms.new id ≡ Some Truth) }
    ensures grows { Grows terms.old terms.new }
    ensures weighs { OnOk result (IfSome (says.refined_action start.now.program.now start.now.proc.now) (λ a. graph_weight terms.new ≤ graph_weight terms.old + 4 * lin start.now.program.now (length start.now.held.now + linear_globals start.now.program.now) + gate_weight start.now.program.now a + (if is_entry start.now.cut.kind then 1 else if is_rank_loop start.now.cut.kind then 4 else 2))) }
{
    let apart = owned_apart(
        alloc,
        terms,
        start.program,
        &beginning.globals,
        &beginning.locals,
        start.held,
    )?;
    let gate = begun_gate(alloc, terms, start, beginning)?;
    let id = both(terms, apart, gate)?;
    Ok(id)
}

/// What is assumed at a cut: the invariants of the step hold of the old globals; the cut's invariant holds; the refined action's
/// gate holds of the old globals, where old `done` is false; where it is true, so is `done`; and what the linear globals and the
/// held locals carry is pairwise disjoint. It is said of beginnings with `BeginsAt`: old `done` is `done` but at a rank loop, and both are
/// false at the entry.
///
/// The graph's weight rises by at most four times what a condition's weight counts for this; and, but for a rank loop, by 2 less.
///
/// # Errors
///
/// For want of memory; the nodes before stay.
pub fn assumed(
    alloc: Alloc,
    terms: &mut Terms,
    start: &Start<'_>,
    beginning: &Beginning,
) -> Result<Id, Memory>
    requires start { IsStart start.now }
    requires begins { CanBegin terms.old start.now.program.now start.now.step start.now.proc.now start.now.cut beginning.now }
    ensures test { IfOk result (λ id. (b : Env → Begun) → ((env : Env) → BeginsAt start.now.cut.kind (b env)) → AreBegun terms.old start.now.program.now start.now.step start.now.proc.now start.now.cut beginning.now b → IsTest terms.new id (λ env. says.assumed start.now.program.now start.now.step start.now.proc.now start.now.number start.now.cut (b env))) }
    ensures sorted { IfOk result (λ id. sort_at terms.new id ≡ Some Truth) }
    ensures grows { Grows terms.old terms.new }
    ensures weighs { OnOk result (graph_weight terms.new + (if is_rank_loop start.now.cut.kind then 0 else 2) ≤ graph_weight terms.old + 4 * base_weight start.now.program.now start.now.step start.now.proc.now start.now.number start.now.cut) }
{
    let test = owned_and_gated(alloc, terms, start, beginning)?;
    let view = view_of(beginning);
    let test = with_note(
        alloc,
        terms,
        start.program,
        start.proc,
        start.note,
        &view,
        test,
    )?;
    let test = with_invariants(
        terms,
        start.program,
        start.step,
        &beginning.old_globals,
        test,
    )?;
    Ok(test)
}
