// Whether a rank falls, and whether the invariant holds at a cut where a path ends.
ghost use Rattle.std.specs.Prelude.{◌≡◌, ◌+◌, ◌*◌, ◌≤◌, Some, IfOk, OnOk, if◌then◌else◌};
ghost use Rattle.civl_firing.specs.values.Values.{is_true};
ghost use Rattle.civl_firing.specs.values.Operators.{two_value};
ghost use Rattle.civl_firing.specs.values.Weights.{bits_in};
ghost use Rattle.civl_tree.specs.declared.expr.Two.TheVariants.{Lt};
ghost use Rattle.civl_tree.specs.declared.expr.Sort.TheVariants.{Bool as Truth};
ghost use Rattle.civl_tree.specs.rules.Sorts.{sort_of};
ghost use Rattle.civl_tree.specs.rules.Scopes.{note_scope};
ghost use Rattle.civl_firing.specs.Eval.{value_of};
ghost use Rattle.civl_terms.specs.Graphs.{sort_at};
ghost use Rattle.civl_terms.specs.Building.{Grows};
ghost use Rattle.civl_terms.specs.Weights.{graph_weight};
ghost use Rattle.civl_conditions.specs.paths.NoteValues.{plain_note_values, note_values, steady_note_values};
ghost use Rattle.civl_conditions.specs.paths.Ends.{is_rank_loop};
ghost use Rattle.civl_conditions.specs.paths.Paths.{Progress};
ghost use Rattle.civl_conditions.specs.Invariants.{holds_in};
ghost use Rattle.civl_conditions.specs.Assumed.{cut_invariant, cut_rank};
ghost use Rattle.civl_conditions.specs.Values.{Begun};
ghost use Rattle.civl_conditions.specs.Weights.{note_weight};
ghost use Rattle.civl_states.specs.formula_parts.Said.{Env, IsTest};
ghost use Rattle.civl_states.specs.Beginnings.{AreBegun, CanBegin};
ghost use Rattle.civl_body.specs.Walks.{CanEnd};
ghost use Rattle.civl_refine.specs.Assuming.{IsStart};
ghost use Rattle.civl_refine.specs.Judging.{IsAt};

use crate::start::Start;
use crate::steady::{plain_note, steady_note};
use civl_body::Way;
use civl_conditions::paths::is_rank_loop;
use civl_layers::Cut;
use civl_states::{Beginning, View, note};
use civl_terms::{Id, Memory, Terms};
use civl_tree::{Expr, Two};
use std::alloc::Global as Alloc;

/// Rank: whether the loop's rank is a smaller number at the end of a path than at its beginning.
pub(crate) fn rank_kept(
    alloc: Alloc,
    terms: &mut Terms,
    start: &Start<'_>,
    beginning: &Beginning,
    way: &Way,
    rank: &Expr,
) -> Result<Id, Memory>
    requires start { IsStart start.now }
    requires begins { CanBegin terms.old start.now.program.now start.now.step start.now.proc.now start.now.cut beginning.now }
    requires ends { CanEnd terms.old start.now.program.now start.now.proc.now way.now }
    requires rank { cut_rank start.now.proc.now start.now.cut ≡ Some rank.now }
    ensures test { IfOk result (λ id. (b : Env → Begun) (p : Env → Progress) → AreBegun terms.old start.now.program.now start.now.step start.now.proc.now start.now.cut beginning.now b → IsAt terms.old start.now.program.now start.now.proc.now way.now p → IsTest terms.new id (λ env. is_true (two_value Lt (value_of (plain_note_values start.now.program.now.globals start.now.proc.now (p env).store (p env).locals) rank.now) (value_of (plain_note_values start.now.program.now.globals start.now.proc.now (b env).store (b env).locals) rank.now)))) }
    ensures sorted { IfOk result (λ id. sort_at terms.new id ≡ Some Truth) }
    ensures grows { Grows terms.old terms.new }
    ensures weighs { OnOk result (graph_weight terms.new ≤ graph_weight terms.old + 2 * note_weight start.now.program.now start.now.proc.now rank.now + 2 * bits_in (sort_of (note_scope start.now.program.now start.now.proc.now) rank.now)) }
{
    let program = start.program;
    let proc = start.proc;
    let then = plain_note(alloc, terms, program, proc, rank, &way.globals, &way.locals)?;
    let first = plain_note(
        alloc,
        terms,
        program,
        proc,
        rank,
        &beginning.globals,
        &beginning.locals,
    )?;
    let id = terms.two(Two::Lt, then, first)?;
    let _count = terms.len();
    Ok(id)
}

/// Invariant: whether the invariant of a cut at which a path ends holds there; behind a block's end old means the present.
pub(crate) fn invariant_kept(
    alloc: Alloc,
    terms: &mut Terms,
    start: &Start<'_>,
    beginning: &Beginning,
    way: &Way,
    cut: Cut,
    invariant: &Expr,
) -> Result<Id, Memory>
    requires start { IsStart start.now }
    requires begins { CanBegin terms.old start.now.program.now start.now.step start.now.proc.now start.now.cut beginning.now }
    requires ends { CanEnd terms.old start.now.program.now start.now.proc.now way.now }
    requires invariant { cut_invariant start.now.proc.now cut ≡ Some invariant.now }
    ensures test { IfOk result (λ id. (b : Env → Begun) (p : Env → Progress) → AreBegun terms.old start.now.program.now start.now.step start.now.proc.now start.now.cut beginning.now b → IsAt terms.old start.now.program.now start.now.proc.now way.now p → IsTest terms.new id (λ env. holds_in (if is_rank_loop cut.kind then note_values start.now.program.now.globals start.now.proc.now (p env).store (p env).locals (p env).done (b env).old (b env).old_outs (b env).old_done else steady_note_values start.now.program.now.globals start.now.proc.now (p env).store (p env).locals (p env).done) invariant.now)) }
    ensures sorted { IfOk result (λ id. sort_at terms.new id ≡ Some Truth) }
    ensures grows { Grows terms.old terms.new }
    ensures weighs { OnOk result (graph_weight terms.new ≤ graph_weight terms.old + note_weight start.now.program.now start.now.proc.now invariant.now) }
{
    if is_rank_loop(cut.kind) {
        let view = View {
            globals: way.globals.as_slice(),
            locals: way.locals.as_slice(),
            done: way.done,
            old_globals: beginning.old_globals.as_slice(),
            old_outs: beginning.old_outs.as_slice(),
            old_done: beginning.old_done,
        };
        let id = note(alloc, terms, start.program, start.proc, invariant, &view)?;
        return Ok(id);
    }
    let id = steady_note(
        alloc,
        terms,
        start.program,
        start.proc,
        invariant,
        &way.globals,
        &way.locals,
        way.done,
    )?;
    Ok(id)
}
