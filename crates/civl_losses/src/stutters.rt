// What a block without a new commit changes.
ghost use Rattle.std.specs.Prelude.{◌≡◌, IfOk, if◌then◌else◌, []};
ghost use Rattle.civl_layers.specs.Cuts.{proc_cuts};
ghost use Rattle.civl_meaning.specs.Change.{outs_in};
ghost use Rattle.civl_losses.specs.Losses.{outs_differ, changes_lost, stutter_loss};
ghost use Rattle.civl_losses.specs.inner.Routes.{begun_on, end_of};

use crate::arriving::ends_block;
use crate::differing::{changes, globals_differ, outs_differ};
use crate::loss::Loss;
use crate::route::Route;
use civl_meaning::outputs;
use civl_traces::Changed;
use civl_tree::{List, Memory, both};
use std::alloc::Global;

/// The outputs that a block changes, where `done` was true at its beginning.
fn outs_changed(alloc: Global, route: &Route<'_>) -> Result<List<Changed>, Memory>
    ensures { IfOk result (λ list. list ≡ (if route.now.beginning.now.old_done then outs_differ 0
        (outs_in route.now.proc.now route.now.walked.now.end.locals) route.now.beginning.now.old_outs else [])) }
{
    if !route.beginning.old_done {
        return Ok(List::new(alloc));
    }
    outs_differ(
        alloc,
        outputs(route.proc, route.walked.end.locals.as_slice()),
        route.beginning.old_outs.as_slice(),
    )
}

/// What a block changes, if it has passed no new commit.
fn changes_lost(alloc: Global, route: &Route<'_>) -> Result<Option<Loss>, Memory>
    ensures { IfOk result (λ found. found ≡ changes_lost route.now.program.now route.now.step route.now.proc.now (begun_on route.now)
        (end_of route.now)) }
{
    if route.walked.end.done != route.beginning.old_done {
        return Ok(None);
    }
    let globals = globals_differ(
        alloc,
        route.step,
        route.program.globals.as_slice(),
        route.walked.end.store.values.as_slice(),
        route.beginning.old.values.as_slice(),
    );
    match both(globals, outs_changed(alloc, route)) {
        Ok((globals, outs)) => Ok(changes(globals, outs)),
        Err(error) => Err(error),
    }
}

/// Stutter: what a block without a new commit changes, if it ends.
pub(crate) fn stutter_loss(
    alloc: Global,
    route: &Route<'_>,
    end: Option<usize>,
) -> Result<Option<Loss>, Memory>
    requires cuts { route.now.cuts.now ≡ proc_cuts route.now.proc.now }
    ensures { IfOk result (λ found. found ≡ stutter_loss route.now.program.now route.now.step route.now.proc.now (begun_on route.now) end
        (end_of route.now)) }
{
    match end {
        Some(end) => {
            if ends_block(route.cuts, end) {
                changes_lost(alloc, route)
            } else {
                Ok(None)
            }
        }
        None => Ok(None),
    }
}
