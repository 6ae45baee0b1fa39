// What the refined action gives, beside what a block gives.
ghost use Rattle.std.specs.Prelude.{◌≡◌, IfOk, Some, Option, List as ListOf};
ghost use Rattle.civl_bits.specs.declared.value.Value.{Value as Given};
ghost use Rattle.civl_layers.specs.Cuts.{proc_cuts};
ghost use Rattle.civl_firing.specs.Fired.{fires, fired_by};
ghost use Rattle.civl_conditions.specs.Assumed.{inputs_of};
ghost use Rattle.civl_losses.specs.Losses.{chosen_behind, given, action_lost, perform_loss};
ghost use Rattle.civl_losses.specs.inner.Routes.{begun_on, end_of};

use crate::arriving::ends_block;
use crate::differing::{action_gives, globals_differ, outs_differ};
use crate::loss::Loss;
use crate::route::Route;
use civl_assumed::{plain, refined_action};
use civl_bits::Value;
use civl_firing::expressions::values;
use civl_firing::firing::transition;
use civl_firing::{Fired, Store};
use civl_meaning::outputs;
use civl_meaning::slices::first;
use civl_tree::{Action, List, Memory, both};
use std::alloc::Global;

/// The present values of the expressions behind `with`.
fn chosen_behind(alloc: Global, route: &Route<'_>) -> Result<List<Value>, Memory>
    ensures { IfOk result (λ chosen. chosen ≡ chosen_behind route.now.program.now route.now.proc.now (end_of route.now)) }
{
    match &route.proc.refines {
        Some(refines) => {
            let there = &route.walked.end;
            let noted = plain(
                route.program.globals.as_slice(),
                route.proc,
                there.store.values.as_slice(),
                there.locals.as_slice(),
            );
            values(alloc, &noted, refines.with.as_slice())
        }
        None => Ok(List::new(alloc)),
    }
}

/// What this store and these outputs, which the refined action gives, have other than the block's.
fn other_given(
    alloc: Global,
    route: &Route<'_>,
    store: &Store,
    outs: &List<Value>,
) -> Result<Option<Loss>, Memory>
    ensures { IfOk result (λ found. found ≡ given route.now.program.now route.now.step route.now.proc.now (end_of route.now)
        (Some (store.now, outs.now))) }
{
    let there = &route.walked.end;
    let globals = globals_differ(
        alloc,
        route.step,
        route.program.globals.as_slice(),
        there.store.values.as_slice(),
        store.values.as_slice(),
    );
    let others = outs_differ(
        alloc,
        outputs(route.proc, there.locals.as_slice()),
        outs.as_slice(),
    );
    match both(globals, others) {
        Ok((globals, outs)) => Ok(action_gives(globals, outs)),
        Err(error) => Err(error),
    }
}

/// What is lost where the refined action, with these values for its choices, comes to this.
fn given(
    alloc: Global,
    route: &Route<'_>,
    fired: Fired,
    chosen: List<Value>,
) -> Result<Option<Loss>, Memory>
    ensures { chosen ≡ chosen_behind route.now.program.now route.now.proc.now (end_of route.now) →
        (d : Option (Store × ListOf Given)) → fired ≡ fired_by d →
        IfOk result (λ found. found ≡ given route.now.program.now route.now.step route.now.proc.now (end_of route.now) d) }
{
    match fired {
        Fired::Moved(store, outs) => other_given(alloc, route, &store, &outs),
        Fired::Blocked => Ok(Some(Loss::ActionWaits(chosen))),
        Fired::GateFalse => Ok(None),
    }
}

/// What is lost where this is the refined action.
fn action_given(alloc: Global, route: &Route<'_>, action: &Action) -> Result<Option<Loss>, Memory>
    ensures { IfOk result (λ found. found ≡ given route.now.program.now route.now.step route.now.proc.now (end_of route.now)
        (fires route.now.program.now.globals (begun_on route.now).old action.now (inputs_of route.now.proc.now (begun_on route.now).locals)
        (chosen_behind route.now.program.now route.now.proc.now (end_of route.now)))) }
{
    let globals = route.program.globals.as_slice();
    let inputs = first(route.beginning.locals.as_slice(), route.proc.params.len());
    let chosen = chosen_behind(alloc, route)?;
    let old = &route.beginning.old;
    match transition(alloc, globals, old, action, inputs, chosen.as_slice()) {
        Ok(fired) => given(alloc, route, fired, chosen),
        Err(error) => Err(error),
    }
}

/// What is lost of the refined action, if a block has passed a new commit.
fn action_lost(alloc: Global, route: &Route<'_>) -> Result<Option<Loss>, Memory>
    ensures { IfOk result (λ found. found ≡ action_lost route.now.program.now route.now.step route.now.proc.now (begun_on route.now)
        (end_of route.now)) }
{
    if !route.walked.end.done {
        return Ok(None);
    }
    if route.beginning.old_done {
        return Ok(None);
    }
    match refined_action(route.program, route.proc) {
        Some(action) => action_given(alloc, route, action),
        None => Ok(None),
    }
}

/// Perform: what is lost of the refined action, if a block with a new commit ends.
pub(crate) fn perform_loss(
    alloc: Global,
    route: &Route<'_>,
    end: Option<usize>,
) -> Result<Option<Loss>, Memory>
    requires cuts { route.now.cuts.now ≡ proc_cuts route.now.proc.now }
    ensures { IfOk result (λ found. found ≡ perform_loss route.now.program.now route.now.step route.now.proc.now (begun_on route.now) end
        (end_of route.now)) }
{
    match end {
        Some(end) => {
            if ends_block(route.cuts, end) {
                action_lost(alloc, route)
            } else {
                Ok(None)
            }
        }
        None => Ok(None),
    }
}
