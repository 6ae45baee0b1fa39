// What is lost by the statement of a frame, and where it leads.
ghost use Rattle.std.specs.Prelude.{◌≡◌, option_map, IfOk};
ghost use Rattle.civl_tree.specs.Numbered.{IsNumbered};
ghost use Rattle.civl_goals.specs.Failed.{does};
ghost use Rattle.civl_goal_losses.specs.GoalLosses.{broken_there, astray_there, doing_at, fault, moment};
ghost use Rattle.civl_goal_losses.specs.GoalLosses.{keep_loss, next_loss};

use crate::faults::fault;
use crate::losses::{GoalLoss, Moment};
use crate::saying::{frame_of, invariant_holds, note_holds};
use crate::stepping::{moment, reached};
use civl_bits::Value;
use civl_firing::Store;
use civl_layers::{Layered, program};
use civl_meaning::Activation;
use civl_outlines::Outline;
use civl_tree::{Memory, Program};
use std::alloc::Global;

/// Where the outline's invariant is false.
fn broken_there(
    program: &Program,
    outline: &Outline,
    here: Moment,
    there: Moment,
) -> Option<GoalLoss>
    ensures { result ≡ broken_there program.now outline.now here there }
{
    if invariant_holds(program, outline, &there.store) {
        return None;
    }
    Some(GoalLoss::Breaks(here, there))
}

/// Where the note is false before which the frame then stands.
fn astray_there(
    program: &Program,
    outline: &Outline,
    here: Moment,
    there: Moment,
) -> Option<GoalLoss>
    requires numbered { IsNumbered program.now }
    ensures { result ≡ astray_there program.now outline.now here there }
{
    if note_holds(program, outline, &there.store, &frame_of(&there.frame)) {
        return None;
    }
    Some(GoalLoss::Leads(here, there))
}

/// Why the statement of a frame fails.
pub(crate) fn safe_loss(
    alloc: Global,
    program: &Program,
    store: &Store,
    frame: &Activation,
) -> Result<Option<GoalLoss>, Memory>
    ensures { IfOk result (λ told. told ≡ option_map (GoalLoss.Fails (moment store.now frame.now))
        (fault program.now store.now (doing_at program.now frame.now))) }
{
    match fault(alloc, program, store, frame)? {
        Some(fault) => match moment(alloc, store, frame) {
            Ok(here) => Ok(Some(GoalLoss::Fails(here, fault))),
            Err(error) => Err(error),
        },
        None => Ok(None),
    }
}

/// Where the call of a frame leads, if the invariant is false there.
pub(crate) fn keep_loss(
    alloc: Global,
    src: &Layered,
    outline: &Outline,
    store: &Store,
    frame: &Activation,
    chosen: &[Value],
) -> Result<Option<GoalLoss>, Memory>
    ensures { IfOk result (λ told. told ≡ keep_loss src.now outline.now store.now frame.now (does src.now store.now frame.now chosen.now)) }
{
    match reached(alloc, src, store, frame, chosen)? {
        Some(there) => match moment(alloc, store, frame) {
            Ok(here) => Ok(broken_there(program(src), outline, here, there)),
            Err(error) => Err(error),
        },
        None => Ok(None),
    }
}

/// Where the statement of a frame leads, if the note is false there.
pub(crate) fn next_loss(
    alloc: Global,
    src: &Layered,
    outline: &Outline,
    store: &Store,
    frame: &Activation,
    chosen: &[Value],
) -> Result<Option<GoalLoss>, Memory>
    ensures { IfOk result (λ told. told ≡ next_loss src.now outline.now store.now frame.now (does src.now store.now frame.now chosen.now)) }
{
    match reached(alloc, src, store, frame, chosen)? {
        Some(there) => match moment(alloc, store, frame) {
            Ok(here) => Ok(astray_there(program(src), outline, here, there)),
            Err(error) => Err(error),
        },
        None => Ok(None),
    }
}
