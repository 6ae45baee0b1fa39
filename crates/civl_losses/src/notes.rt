// What the cut says at which a path ends.
ghost use Rattle.std.specs.Prelude.{◌≡◌, map};
ghost use Rattle.civl_tree.specs.Numbering.{statements_of};
ghost use Rattle.civl_layers.specs.Cuts.{proc_cuts};
ghost use Rattle.civl_conditions.specs.Parts.{end_values};
ghost use Rattle.civl_assumed.specs.Noted.{scope_noted};
ghost use Rattle.civl_losses.specs.Losses.{note_lost, note_loss};
ghost use Rattle.civl_losses.specs.inner.Routes.{begun_on, end_of};

use crate::arriving::ends_block;
use crate::loss::Loss;
use crate::route::Route;
use civl_assumed::invariants::invariant_of;
use civl_assumed::{Noted, note_holds, steady};
use civl_layers::Cut;

/// What the names in the note of a cut stand for, where the path ends at this one: behind a block's end old means the present.
fn end_values<'a>(route: &Route<'a>, end: usize) -> Noted<'a>
    requires cuts { route.now.cuts.now ≡ proc_cuts route.now.proc.now }
    ensures { scope_noted result ≡ end_values route.now.program.now route.now.proc.now (begun_on route.now) end (end_of route.now) }
{
    let there = &route.walked.end;
    let globals = route.program.globals.as_slice();
    let store = there.store.values.as_slice();
    let locals = there.locals.as_slice();
    if ends_block(route.cuts, end) {
        return steady(globals, route.proc, store, locals, there.done);
    }
    Noted {
        globals,
        proc: route.proc,
        store,
        locals,
        done: there.done,
        old: route.beginning.old.values.as_slice(),
        old_outs: route.beginning.old_outs.as_slice(),
        old_done: route.beginning.old_done,
    }
}

/// What this cut says, if it is false where the path ends at it.
fn note_lost(route: &Route<'_>, end: usize, cut: Cut) -> Option<Loss>
    requires stmts { map (λ s. s.now) route.now.stmts.now ≡ statements_of route.now.proc.now.body }
    requires cuts { route.now.cuts.now ≡ proc_cuts route.now.proc.now }
    ensures { result ≡ note_lost route.now.program.now route.now.proc.now (begun_on route.now) end (end_of route.now) cut }
{
    let values = end_values(route, end);
    if note_holds(&values, invariant_of(route.proc, route.stmts, cut)) {
        None
    } else {
        Some(Loss::FalseNote(end))
    }
}

/// Invariant: what the cut says at which the path ends, if it is false there.
pub(crate) fn note_loss(route: &Route<'_>, end: Option<usize>) -> Option<Loss>
    requires stmts { map (λ s. s.now) route.now.stmts.now ≡ statements_of route.now.proc.now.body }
    requires cuts { route.now.cuts.now ≡ proc_cuts route.now.proc.now }
    ensures { result ≡ note_loss route.now.program.now route.now.proc.now (begun_on route.now) end (end_of route.now) }
{
    match end {
        Some(end) => match route.cuts.get(end) {
            Some(cut) => note_lost(route, end, *cut),
            None => None,
        },
        None => None,
    }
}
