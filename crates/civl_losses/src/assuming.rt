// What is assumed where a path begins.
ghost use Rattle.std.specs.Prelude.{◌≡◌, map, IfOk};
ghost use Rattle.civl_tree.specs.Numbering.{statements_of};
ghost use Rattle.civl_conditions.specs.Assumed.{assumed};
ghost use Rattle.civl_conditions.specs.Permissions.{held_at};
ghost use Rattle.civl_traces.specs.Told.{chosen_at};
ghost use Rattle.civl_assumed.specs.Beginnings.{begun_of};
ghost use Rattle.civl_losses.specs.Beginnings.{begun_from};
ghost use Rattle.civl_losses.specs.inner.Routes.{begun_on, IsPlace};

use crate::beginning::Beginning;
use crate::route::Route;
use civl_assumed::invariants::invariant_of;
use civl_assumed::{Begun, Place, is_assumed};
use civl_tree::Memory;
use std::alloc::Global;

/// The values at a path's beginning.
pub(crate) fn begun<'a>(beginning: &'a Beginning) -> Begun<'a>
    ensures { begun_of result (chosen_at beginning.now.chosen) ≡ begun_from beginning.now }
{
    Begun {
        store: &beginning.store,
        locals: beginning.locals.as_slice(),
        done: beginning.done,
        old: &beginning.old,
        old_outs: beginning.old_outs.as_slice(),
        old_done: beginning.old_done,
    }
}

/// The cut from which a path begins, with what it says.
pub(crate) fn place<'a>(route: &Route<'a>) -> Place<'a>
    requires { map (λ s. s.now) route.now.stmts.now ≡ statements_of route.now.proc.now.body }
    ensures { IsPlace route.now result }
{
    Place {
        program: route.program,
        step: route.step,
        proc: route.proc,
        number: route.number,
        cut: route.cut,
        note: invariant_of(route.proc, route.stmts, route.cut),
        held: route.held,
    }
}

/// Whether what is assumed at the cut holds at the path's beginning.
pub(crate) fn is_assumed_on(alloc: Global, route: &Route<'_>) -> Result<bool, Memory>
    requires stmts { map (λ s. s.now) route.now.stmts.now ≡ statements_of route.now.proc.now.body }
    requires held { route.now.held.now ≡ held_at route.now.program.now route.now.proc.now route.now.number }
    ensures { IfOk result (λ is. is ≡ assumed route.now.program.now route.now.step route.now.proc.now route.now.number route.now.cut
        (begun_on route.now)) }
{
    is_assumed(alloc, &place(route), &begun(route.beginning))
}
