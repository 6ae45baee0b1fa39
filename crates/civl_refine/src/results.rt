// Whether what a block comes to is the same as something else: the globals of the upper program, and the outputs.
ghost use Rattle.std.specs.Prelude.{◌≡◌, ◌+◌, ◌*◌, ◌≤◌, ◌&&◌, ◌||◌, not, Bool, List, Some, IfOk, OnOk};
ghost use Rattle.civl_bits.specs.declared.value.Value.{Value};
ghost use Rattle.civl_tree.specs.declared.expr.Sort.TheVariants.{Bool as Truth};
ghost use Rattle.civl_tree.specs.rules.Uses.{param_sorts};
ghost use Rattle.civl_meaning.specs.Config.{frame_sorts};
ghost use Rattle.civl_meaning.specs.Change.{outs_in};
ghost use Rattle.civl_terms.specs.Graphs.{sort_at};
ghost use Rattle.civl_terms.specs.Building.{Grows};
ghost use Rattle.civl_terms.specs.Weights.{graph_weight};
ghost use Rattle.civl_actions.specs.Scopes.{AreOf};
ghost use Rattle.civl_conditions.specs.footprints.Agreement.{exists_at};
ghost use Rattle.civl_conditions.specs.paths.Paths.{Progress};
ghost use Rattle.civl_conditions.specs.Values.{Begun, same_bool, same_values, same_stores};
ghost use Rattle.civl_conditions.specs.Weights.{result_bits};
ghost use Rattle.civl_states.specs.formula_parts.Said.{Env, IsTest};
ghost use Rattle.civl_states.specs.formula_parts.Lists.{AreSaid};
ghost use Rattle.civl_states.specs.Same.{same_weight};
ghost use Rattle.civl_states.specs.Beginnings.{AreBegun, CanBegin};
ghost use Rattle.civl_body.specs.Walks.{CanEnd};
ghost use Rattle.civl_refine.specs.Assuming.{IsStart};
ghost use Rattle.civl_refine.specs.Judging.{IsAt};

use crate::start::Start;
use crate::steady::out_ids;
use civl_body::Way;
use civl_moves::implied;
use civl_states::formula_parts::{all_same, both, same};
use civl_states::{Beginning, same_globals};
use civl_terms::{Id, Memory, Terms};
use civl_tree::{List as Ids, Proc};
use std::alloc::Global as Alloc;

/// Whether two tests are both true or both false.
fn alike(terms: &mut Terms, a: Id, b: Id) -> Result<Id, Memory>
    requires a { sort_at terms.old a ≡ Some Truth }
    requires b { sort_at terms.old b ≡ Some Truth }
    ensures test { IfOk result (λ id. (f g : Env → Bool) → IsTest terms.old a f → IsTest terms.old b g → IsTest terms.new id (λ env. same_bool (f env) (g env))) }
    ensures sorted { IfOk result (λ id. sort_at terms.new id ≡ Some Truth) }
    ensures grows { Grows terms.old terms.new }
    ensures weighs { OnOk result (graph_weight terms.new ≤ graph_weight terms.old + 1) }
{
    let id = same(terms, a, b)?;
    Ok(id)
}

/// Whether the outputs in a frame have these values.
pub(crate) fn same_outs(
    alloc: Alloc,
    terms: &mut Terms,
    proc: &Proc,
    locals: &Ids<Id>,
    outs: &Ids<Id>,
) -> Result<Id, Memory>
    requires locals { AreOf terms.old locals.now (frame_sorts proc.now) }
    requires outs { AreOf terms.old outs.now (param_sorts proc.now.outs) }
    ensures test { IfOk result (λ id. (v w : Env → List Value) → AreSaid terms.old locals.now (frame_sorts proc.now) v → AreSaid terms.old outs.now (param_sorts proc.now.outs) w → IsTest terms.new id (λ env. same_values (outs_in proc.now (v env)) (w env))) }
    ensures sorted { IfOk result (λ id. sort_at terms.new id ≡ Some Truth) }
    ensures grows { Grows terms.old terms.new }
    ensures weighs { OnOk result (graph_weight terms.new ≤ graph_weight terms.old + same_weight (param_sorts proc.now.outs)) }
{
    let here = out_ids(alloc, proc, locals)?;
    let id = all_same(terms, here.as_slice(), outs.as_slice())?;
    Ok(id)
}

/// Whether a test, if it is true, brings with it that the outputs in a frame have these values; and this test.
fn with_outs(
    alloc: Alloc,
    terms: &mut Terms,
    proc: &Proc,
    test: Id,
    asked: Id,
    locals: &Ids<Id>,
    outs: &Ids<Id>,
) -> Result<Id, Memory>
    requires test { sort_at terms.old test ≡ Some Truth }
    requires asked { sort_at terms.old asked ≡ Some Truth }
    requires locals { AreOf terms.old locals.now (frame_sorts proc.now) }
    requires outs { AreOf terms.old outs.now (param_sorts proc.now.outs) }
    ensures test { IfOk result (λ id. (f g : Env → Bool) (v w : Env → List Value) → IsTest terms.old test f → IsTest terms.old asked g → AreSaid terms.old locals.now (frame_sorts proc.now) v → AreSaid terms.old outs.now (param_sorts proc.now.outs) w → IsTest terms.new id (λ env. f env && (not (g env) || same_values (outs_in proc.now (v env)) (w env)))) }
    ensures sorted { IfOk result (λ id. sort_at terms.new id ≡ Some Truth) }
    ensures grows { Grows terms.old terms.new }
    ensures weighs { OnOk result (graph_weight terms.new ≤ graph_weight terms.old + same_weight (param_sorts proc.now.outs) + 2) }
{
    let same = same_outs(alloc, terms, proc, locals, outs)?;
    let kept = implied(terms, asked, same)?;
    let id = both(terms, test, kept)?;
    Ok(id)
}

/// Whether the globals of the upper program are as they were, and the outputs too if `done` was true.
fn results_kept(
    alloc: Alloc,
    terms: &mut Terms,
    start: &Start<'_>,
    beginning: &Beginning,
    way: &Way,
) -> Result<Id, Memory>
    requires start { IsStart start.now }
    requires begins { CanBegin terms.old start.now.program.now start.now.step start.now.proc.now start.now.cut beginning.now }
    requires ends { CanEnd terms.old start.now.program.now start.now.proc.now way.now }
    ensures test { IfOk result (λ id. (b : Env → Begun) (p : Env → Progress) → AreBegun terms.old start.now.program.now start.now.step start.now.proc.now start.now.cut beginning.now b → IsAt terms.old start.now.program.now start.now.proc.now way.now p → IsTest terms.new id (λ env. same_stores (exists_at start.now.step) start.now.program.now (p env).store (b env).old && (not (b env).old_done || same_values (outs_in start.now.proc.now (p env).locals) (b env).old_outs))) }
    ensures sorted { IfOk result (λ id. sort_at terms.new id ≡ Some Truth) }
    ensures grows { Grows terms.old terms.new }
    ensures weighs { OnOk result (graph_weight terms.new ≤ graph_weight terms.old + 4 * result_bits start.now.program.now start.now.step start.now.proc.now) }
{
    let program = start.program;
    let old = &beginning.old_globals;
    let stores = same_globals(alloc, terms, program, start.step, &way.globals, old)?;
    if start.proc.outs.is_empty() {
        return Ok(stores);
    }
    let id = with_outs(
        alloc,
        terms,
        start.proc,
        stores,
        beginning.old_done,
        &way.locals,
        &beginning.old_outs,
    )?;
    Ok(id)
}

/// Stutter: whether a block with `done` as it was leaves the globals of the upper program as they were; and the outputs too, if
/// `done` was true.
pub(crate) fn stutter_kept(
    alloc: Alloc,
    terms: &mut Terms,
    start: &Start<'_>,
    beginning: &Beginning,
    way: &Way,
) -> Result<Id, Memory>
    requires start { IsStart start.now }
    requires begins { CanBegin terms.old start.now.program.now start.now.step start.now.proc.now start.now.cut beginning.now }
    requires ends { CanEnd terms.old start.now.program.now start.now.proc.now way.now }
    ensures test { IfOk result (λ id. (b : Env → Begun) (p : Env → Progress) → AreBegun terms.old start.now.program.now start.now.step start.now.proc.now start.now.cut beginning.now b → IsAt terms.old start.now.program.now start.now.proc.now way.now p → IsTest terms.new id (λ env. not (same_bool (p env).done (b env).old_done && (not (same_stores (exists_at start.now.step) start.now.program.now (p env).store (b env).old) || ((b env).old_done && not (same_values (outs_in start.now.proc.now (p env).locals) (b env).old_outs)))))) }
    ensures sorted { IfOk result (λ id. sort_at terms.new id ≡ Some Truth) }
    ensures grows { Grows terms.old terms.new }
    ensures weighs { OnOk result (graph_weight terms.new ≤ graph_weight terms.old + 4 * result_bits start.now.program.now start.now.step start.now.proc.now + 2) }
{
    let stays = alike(terms, way.done, beginning.old_done)?;
    let kept = results_kept(alloc, terms, start, beginning, way)?;
    let id = implied(terms, stays, kept)?;
    Ok(id)
}
