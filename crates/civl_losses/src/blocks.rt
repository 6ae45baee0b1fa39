// K10: the target that a block from a cut loses.
ghost use Rattle.std.specs.Prelude.{◌≡◌, ◌++◌, ◌<◌, ◌^◌, map, length, IfOk, Some, None, if◌then◌else◌};
ghost use Rattle.civl_tree.specs.Numbering.{sizes_of, statements_of};
ghost use Rattle.civl_layers.specs.Cuts.{proc_cuts};
ghost use Rattle.civl_linear.specs.Cuts.{all_held};
ghost use Rattle.civl_meaning.specs.Permissions.{pairwise_disjoint};
ghost use Rattle.civl_conditions.specs.Assumed.{owned};
ghost use Rattle.civl_conditions.specs.Permissions.{held_at};
ghost use Rattle.civl_conditions.specs.Values.{layout};
ghost use Rattle.civl_conditions.specs.Targets.{target_owned, target_lost};
ghost use Rattle.civl_losses.specs.Losses.{target_loss};
ghost use Rattle.civl_losses.specs.inner.Routes.{begun_on, block_lost};

use crate::arriving::{arrival, ends_block};
use crate::assuming::{begun, is_assumed_on, place};
use crate::beginning::From;
use crate::behind::behind_beginning;
use crate::loss::Loss;
use crate::route::Route;
use civl_assumed::permissions::are_apart;
use civl_assumed::{owned, push_target_owned, target_lost};
use civl_bits::Value;
use civl_conditions::Target;
use civl_layers::{Held, Layered};
use civl_tree::{List, Memory};
use std::alloc::Global;

/// The permissions that are owned at the path's beginning, and those of the frame at the target, whose values these begin with.
fn owned_by_both(
    alloc: Global,
    src: &Layered,
    held: &Held,
    route: &Route<'_>,
    target: Target,
    values: &[Value],
) -> Result<Vec<List<u32>>, Memory>
    requires program { route.now.program.now ≡ src.now }
    requires all { held.now.cuts ≡ all_held src.now }
    requires stmts { map (λ s. s.now) route.now.stmts.now ≡ statements_of route.now.proc.now.body }
    requires held { route.now.held.now ≡ held_at route.now.program.now route.now.proc.now route.now.number }
    ensures { IfOk result (λ lists. lists.items ≡ owned src.now route.now.proc.now route.now.number (begun_on route.now)
        ++ target_owned src.now target values.now 0) }
{
    let mut lists = owned(alloc, &place(route), &begun(route.beginning))?;
    push_target_owned(alloc, &mut lists, src, held, target, values, 0)?;
    Ok(lists)
}

/// Whether these permissions are apart.
fn both_apart(
    alloc: Global,
    src: &Layered,
    held: &Held,
    route: &Route<'_>,
    target: Target,
    values: &[Value],
) -> Result<bool, Memory>
    requires program { route.now.program.now ≡ src.now }
    requires all { held.now.cuts ≡ all_held src.now }
    requires stmts { map (λ s. s.now) route.now.stmts.now ≡ statements_of route.now.proc.now.body }
    requires held { route.now.held.now ≡ held_at route.now.program.now route.now.proc.now route.now.number }
    ensures { IfOk result (λ apart. apart ≡ pairwise_disjoint (owned src.now route.now.proc.now route.now.number (begun_on route.now)
        ++ target_owned src.now target values.now 0)) }
{
    let lists = owned_by_both(alloc, src, held, route, target, values)?;
    Ok(are_apart(lists.as_slice()))
}

/// The target, if it is lost at the path's end.
fn lost_at_end(
    alloc: Global,
    src: &Layered,
    route: &Route<'_>,
    target: Target,
    values: &[Value],
) -> Result<Option<Loss>, Memory>
    ensures { IfOk result (λ found. found ≡ (if target_lost src.now route.now.step target values.now 0 route.now.beginning.now.old
        route.now.walked.now.end.store then Some Loss.TargetLost else None)) }
{
    let old = &route.beginning.old;
    let store = &route.walked.end.store;
    if target_lost(alloc, src, route.step, target, values, 0, old, store)? {
        Ok(Some(Loss::TargetLost))
    } else {
        Ok(None)
    }
}

/// The target, if a block ends where it is lost.
fn target_loss(
    alloc: Global,
    src: &Layered,
    route: &Route<'_>,
    target: Target,
    values: &[Value],
) -> Result<Option<Loss>, Memory>
    requires stmts { map (λ s. s.now) route.now.stmts.now ≡ statements_of route.now.proc.now.body }
    requires few { length route.now.stmts.now < 2 ^ 32 }
    requires cuts { route.now.cuts.now ≡ proc_cuts route.now.proc.now }
    ensures { IfOk result (λ found. found ≡ target_loss src.now route.now.step route.now.proc.now (begun_on route.now)
        route.now.walked.now target values.now 0) }
{
    match arrival(route) {
        Some(end) => {
            if ends_block(route.cuts, end) {
                lost_at_end(alloc, src, route, target, values)
            } else {
                Ok(None)
            }
        }
        None => Ok(None),
    }
}

/// K10: the target, if a block ends where it is lost, and what is assumed at the cut holds. The values of another thread's frame at
/// the target are those with which these begin.
fn block_loss(
    alloc: Global,
    src: &Layered,
    held: &Held,
    route: &Route<'_>,
    target: Target,
    values: &[Value],
) -> Result<Option<Loss>, Memory>
    requires program { route.now.program.now ≡ src.now }
    requires all { held.now.cuts ≡ all_held src.now }
    requires stmts { map (λ s. s.now) route.now.stmts.now ≡ statements_of route.now.proc.now.body }
    requires few { length route.now.stmts.now < 2 ^ 32 }
    requires cuts { route.now.cuts.now ≡ proc_cuts route.now.proc.now }
    requires held { route.now.held.now ≡ held_at route.now.program.now route.now.proc.now route.now.number }
    ensures { IfOk result (λ found. found ≡ block_lost src.now route.now target values.now 0) }
{
    if !is_assumed_on(alloc, route)? {
        return Ok(None);
    }
    if both_apart(alloc, src, held, route, target, values)? {
        target_loss(alloc, src, route, target, values)
    } else {
        Ok(None)
    }
}

/// K10, where the values are those of the whole condition: another thread's frame at the target has those behind the beginning's.
pub(crate) fn block_lost(
    alloc: Global,
    src: &Layered,
    held: &Held,
    route: &Route<'_>,
    target: Target,
    values: &[Value],
) -> Result<Option<Loss>, Memory>
    requires numbered { sizes_of route.now.proc.now.body < 2 ^ 32 }
    requires program { route.now.program.now ≡ src.now }
    requires all { held.now.cuts ≡ all_held src.now }
    requires stmts { map (λ s. s.now) route.now.stmts.now ≡ statements_of route.now.proc.now.body }
    requires few { length route.now.stmts.now < 2 ^ 32 }
    requires cuts { route.now.cuts.now ≡ proc_cuts route.now.proc.now }
    requires held { route.now.held.now ≡ held_at route.now.program.now route.now.proc.now route.now.number }
    ensures { IfOk result (λ found. found ≡ block_lost src.now route.now target values.now
        (layout src.now route.now.step route.now.proc.now route.now.cut).behind) }
{
    let from = From {
        program: route.program,
        step: route.step,
        proc: route.proc,
        cut: route.cut,
    };
    let rest = behind_beginning(alloc, &from, values)?;
    block_loss(alloc, src, held, route, target, rest)
}
