// K9: what a path from a cut loses of a part.
ghost use Rattle.std.specs.Prelude.{◌≡◌, ◌<◌, ◌^◌, map, length, IfOk};
ghost use Rattle.civl_tree.specs.Numbering.{statements_of};
ghost use Rattle.civl_layers.specs.Cuts.{proc_cuts};
ghost use Rattle.civl_conditions.specs.Permissions.{held_at};
ghost use Rattle.civl_losses.specs.Losses.{part_loss};
ghost use Rattle.civl_losses.specs.inner.Routes.{begun_on, path_lost};

use crate::arriving::arrival;
use crate::assuming::is_assumed_on;
use crate::commits::once_loss;
use crate::gates::gate_loss;
use crate::loss::Loss;
use crate::notes::note_loss;
use crate::performing::perform_loss;
use crate::ranks::rank_loss;
use crate::route::Route;
use crate::stutters::stutter_loss;
use civl_conditions::Part;
use civl_tree::Memory;
use std::alloc::Global;

/// What is lost of a part.
fn part_loss(alloc: Global, route: &Route<'_>, part: Part) -> Result<Option<Loss>, Memory>
    requires stmts { map (λ s. s.now) route.now.stmts.now ≡ statements_of route.now.proc.now.body }
    requires few { length route.now.stmts.now < 2 ^ 32 }
    requires cuts { route.now.cuts.now ≡ proc_cuts route.now.proc.now }
    ensures { IfOk result (λ found. found ≡ part_loss route.now.program.now route.now.step route.now.proc.now route.now.number
        route.now.cut (begun_on route.now) route.now.walked.now part) }
{
    let end = arrival(route);
    match part {
        Part::Gate => gate_loss(alloc, route),
        Part::Invariant => Ok(note_loss(route, end)),
        Part::Once => Ok(once_loss(route, end)),
        Part::Stutter => stutter_loss(alloc, route, end),
        Part::Perform => perform_loss(alloc, route, end),
        Part::Rank => Ok(rank_loss(route, end)),
    }
}

/// K9: what is lost of a part, where what is assumed at the cut holds.
pub(crate) fn path_loss(
    alloc: Global,
    route: &Route<'_>,
    part: Part,
) -> Result<Option<Loss>, Memory>
    requires stmts { map (λ s. s.now) route.now.stmts.now ≡ statements_of route.now.proc.now.body }
    requires few { length route.now.stmts.now < 2 ^ 32 }
    requires cuts { route.now.cuts.now ≡ proc_cuts route.now.proc.now }
    requires held { route.now.held.now ≡ held_at route.now.program.now route.now.proc.now route.now.number }
    ensures { IfOk result (λ found. found ≡ path_lost route.now part) }
{
    if is_assumed_on(alloc, route)? {
        part_loss(alloc, route, part)
    } else {
        Ok(None)
    }
}
