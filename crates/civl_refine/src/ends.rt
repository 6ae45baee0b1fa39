// What a part of the condition on paths comes to at each end.
ghost use Rattle.std.specs.Prelude.{◌≡◌, ◌+◌, ◌*◌, ◌≤◌, not, true, Some, IfOk, OnOk, option_copied, map, slice_get};
ghost use Rattle.civl_tree.specs.declared.stmt.Stmt.{out-Stmt};
ghost use Rattle.civl_tree.specs.Numbering.{statements_of};
ghost use Rattle.civl_layers.specs.Cuts.{proc_cuts};
ghost use Rattle.civl_terms.specs.Building.{Grows};
ghost use Rattle.civl_terms.specs.Weights.{graph_weight};
ghost use Rattle.std.specs.Option.{option_map_or};
ghost use Rattle.civl_conditions.specs.paths.Ends.{is_rank_loop};
ghost use Rattle.civl_conditions.specs.declared.condition.Part.TheVariants.{Invariant, Once, Stutter, Perform, Rank};
ghost use Rattle.civl_conditions.specs.Assumed.{layer_rank, cut_rank};
ghost use Rattle.civl_conditions.specs.Weights.{part_weight};
ghost use Rattle.civl_states.specs.Beginnings.{CanBegin};
ghost use Rattle.civl_body.specs.Walks.{CanEnd};
ghost use Rattle.civl_refine.specs.Assuming.{IsStart};
ghost use Rattle.civl_refine.specs.Judging.{AreCuts, IsAsked, KeepsAt};

use crate::invariants::invariant_of;
use crate::performing::perform_kept;
use crate::ranks::{invariant_kept, rank_kept};
use crate::results::stutter_kept;
use crate::start::Start;
use civl_body::Way;
use civl_conditions::paths::is_rank_loop;
use civl_layers::{Cut, CutKind};
use civl_states::Beginning;
use civl_terms::{Id, Memory, Terms};
use civl_tree::{Expr, Proc, Stmt};
use std::alloc::Global as Alloc;

/// The rank of a statement that is a rank loop.
fn stmt_rank(stmt: &Stmt) -> Option<&Expr>
    ensures { option_copied result ≡ layer_rank (out-Stmt stmt.now) }
{
    match stmt {
        Stmt::RankLoop(_, rank, _, _) => Some(rank),
        Stmt::YieldLoop(_, _, _) => None,
        Stmt::Yield(_) => None,
        Stmt::Assign(_, _) => None,
        Stmt::Assert(_) => None,
        Stmt::If(_, _, _) => None,
        Stmt::While(_, _) => None,
        Stmt::Call(_, _, _) => None,
        Stmt::Commit => None,
        Stmt::Intro(_, _) => None,
        Stmt::Spawn(_, _) => None,
    }
}

/// The rank of a cut, where it has one. These are all statements of the procedure.
fn rank_of<'a>(proc: &Proc, flat: &[&'a Stmt], cut: Cut) -> Option<&'a Expr>
    requires { map (λ s. s.now) flat.now ≡ statements_of proc.now.body }
    ensures { option_copied result ≡ cut_rank proc.now cut }
{
    match cut.kind {
        CutKind::Entry => None,
        CutKind::Yield | CutKind::YieldLoop | CutKind::RankLoop => {
            match flat.get(cut.statement as usize) {
                Some(stmt) => stmt_rank(stmt),
                None => None,
            }
        }
    }
}

/// Whether a block ends at this end: at the exit, and at each cut but rank loops. These are all cuts of the procedure.
pub fn ends_block(cuts: &[Cut], end: u32) -> bool
    ensures { result ≡ option_map_or (λ cut. not (is_rank_loop cut.kind)) (slice_get cuts.now end) true }
{
    match cuts.get(end as usize) {
        Some(cut) => !is_rank_loop(cut.kind),
        None => true,
    }
}

/// Once: at the exit `done` is true.
pub(crate) fn once_at(
    alloc: Alloc,
    terms: &mut Terms,
    start: &Start<'_>,
    beginning: &Beginning,
    way: &Way,
    cuts: &[Cut],
) -> Result<Option<Id>, Memory>
    requires start { IsStart start.now }
    requires begins { CanBegin terms.old start.now.program.now start.now.step start.now.proc.now start.now.cut beginning.now }
    requires ends { CanEnd terms.old start.now.program.now start.now.proc.now way.now }
    requires cuts { AreCuts start.now.proc.now cuts.now }
    ensures keeps { IfOk result (λ asked. KeepsAt terms.old terms.new start.now beginning.now way.now Once asked) }
    ensures sorted { IfOk result (λ asked. IsAsked terms.new asked) }
    ensures grows { Grows terms.old terms.new }
    ensures weighs { OnOk result (graph_weight terms.new + 2 ≤ graph_weight terms.old + 4 * part_weight start.now.program.now start.now.step start.now.proc.now start.now.cut Once way.now.end) }
{
    if way.end as usize == cuts.len() {
        return Ok(Some(way.done));
    }
    Ok(None)
}

/// Stutter, at a block's end.
pub(crate) fn stutter_at(
    alloc: Alloc,
    terms: &mut Terms,
    start: &Start<'_>,
    beginning: &Beginning,
    way: &Way,
    cuts: &[Cut],
) -> Result<Option<Id>, Memory>
    requires start { IsStart start.now }
    requires begins { CanBegin terms.old start.now.program.now start.now.step start.now.proc.now start.now.cut beginning.now }
    requires ends { CanEnd terms.old start.now.program.now start.now.proc.now way.now }
    requires cuts { AreCuts start.now.proc.now cuts.now }
    ensures keeps { IfOk result (λ asked. KeepsAt terms.old terms.new start.now beginning.now way.now Stutter asked) }
    ensures sorted { IfOk result (λ asked. IsAsked terms.new asked) }
    ensures grows { Grows terms.old terms.new }
    ensures weighs { OnOk result (graph_weight terms.new + 2 ≤ graph_weight terms.old + 4 * part_weight start.now.program.now start.now.step start.now.proc.now start.now.cut Stutter way.now.end) }
{
    if ends_block(cuts, way.end) {
        let id = stutter_kept(alloc, terms, start, beginning, way)?;
        return Ok(Some(id));
    }
    Ok(None)
}

/// Perform, at a block's end.
pub(crate) fn perform_at(
    alloc: Alloc,
    terms: &mut Terms,
    start: &Start<'_>,
    beginning: &Beginning,
    way: &Way,
    cuts: &[Cut],
) -> Result<Option<Id>, Memory>
    requires start { IsStart start.now }
    requires begins { CanBegin terms.old start.now.program.now start.now.step start.now.proc.now start.now.cut beginning.now }
    requires ends { CanEnd terms.old start.now.program.now start.now.proc.now way.now }
    requires cuts { AreCuts start.now.proc.now cuts.now }
    ensures keeps { IfOk result (λ asked. KeepsAt terms.old terms.new start.now beginning.now way.now Perform asked) }
    ensures sorted { IfOk result (λ asked. IsAsked terms.new asked) }
    ensures grows { Grows terms.old terms.new }
    ensures weighs { OnOk result (graph_weight terms.new + 2 ≤ graph_weight terms.old + 4 * part_weight start.now.program.now start.now.step start.now.proc.now start.now.cut Perform way.now.end) }
{
    if ends_block(cuts, way.end) {
        let id = perform_kept(alloc, terms, start, beginning, way)?;
        return Ok(Some(id));
    }
    Ok(None)
}

/// Rank, at the same loop.
pub(crate) fn rank_at(
    alloc: Alloc,
    terms: &mut Terms,
    start: &Start<'_>,
    beginning: &Beginning,
    way: &Way,
    flat: &[&Stmt],
) -> Result<Option<Id>, Memory>
    requires start { IsStart start.now }
    requires begins { CanBegin terms.old start.now.program.now start.now.step start.now.proc.now start.now.cut beginning.now }
    requires ends { CanEnd terms.old start.now.program.now start.now.proc.now way.now }
    requires flat { map (λ s. s.now) flat.now ≡ statements_of start.now.proc.now.body }
    ensures keeps { IfOk result (λ asked. KeepsAt terms.old terms.new start.now beginning.now way.now Rank asked) }
    ensures sorted { IfOk result (λ asked. IsAsked terms.new asked) }
    ensures grows { Grows terms.old terms.new }
    ensures weighs { OnOk result (graph_weight terms.new + 2 ≤ graph_weight terms.old + 4 * part_weight start.now.program.now start.now.step start.now.proc.now start.now.cut Rank way.now.end) }
{
    if way.end != start.number {
        return Ok(None);
    }
    match rank_of(start.proc, flat, start.cut) {
        Some(rank) => {
            let id = rank_kept(alloc, terms, start, beginning, way, rank)?;
            Ok(Some(id))
        }
        None => Ok(None),
    }
}

/// Invariant, at this cut.
fn invariant_there(
    alloc: Alloc,
    terms: &mut Terms,
    start: &Start<'_>,
    beginning: &Beginning,
    way: &Way,
    flat: &[&Stmt],
    cut: Cut,
) -> Result<Option<Id>, Memory>
    requires start { IsStart start.now }
    requires begins { CanBegin terms.old start.now.program.now start.now.step start.now.proc.now start.now.cut beginning.now }
    requires ends { CanEnd terms.old start.now.program.now start.now.proc.now way.now }
    requires flat { map (λ s. s.now) flat.now ≡ statements_of start.now.proc.now.body }
    requires cut { slice_get (proc_cuts start.now.proc.now) way.now.end ≡ Some cut }
    ensures keeps { IfOk result (λ asked. KeepsAt terms.old terms.new start.now beginning.now way.now Invariant asked) }
    ensures sorted { IfOk result (λ asked. IsAsked terms.new asked) }
    ensures grows { Grows terms.old terms.new }
    ensures weighs { OnOk result (graph_weight terms.new + 2 ≤ graph_weight terms.old + 4 * part_weight start.now.program.now start.now.step start.now.proc.now start.now.cut Invariant way.now.end) }
{
    match invariant_of(start.proc, flat, cut) {
        Some(invariant) => {
            let id = invariant_kept(alloc, terms, start, beginning, way, cut, invariant)?;
            Ok(Some(id))
        }
        None => Ok(None),
    }
}

/// Invariant, at a cut.
pub(crate) fn invariant_at(
    alloc: Alloc,
    terms: &mut Terms,
    start: &Start<'_>,
    beginning: &Beginning,
    way: &Way,
    cuts: &[Cut],
    flat: &[&Stmt],
) -> Result<Option<Id>, Memory>
    requires start { IsStart start.now }
    requires begins { CanBegin terms.old start.now.program.now start.now.step start.now.proc.now start.now.cut beginning.now }
    requires ends { CanEnd terms.old start.now.program.now start.now.proc.now way.now }
    requires cuts { AreCuts start.now.proc.now cuts.now }
    requires flat { map (λ s. s.now) flat.now ≡ statements_of start.now.proc.now.body }
    ensures keeps { IfOk result (λ asked. KeepsAt terms.old terms.new start.now beginning.now way.now Invariant asked) }
    ensures sorted { IfOk result (λ asked. IsAsked terms.new asked) }
    ensures grows { Grows terms.old terms.new }
    ensures weighs { OnOk result (graph_weight terms.new + 2 ≤ graph_weight terms.old + 4 * part_weight start.now.program.now start.now.step start.now.proc.now start.now.cut Invariant way.now.end) }
{
    match cuts.get(way.end as usize) {
        Some(cut) => invariant_there(alloc, terms, start, beginning, way, flat, *cut),
        None => Ok(None),
    }
}
