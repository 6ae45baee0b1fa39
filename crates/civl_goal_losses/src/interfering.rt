// What the call of a frame does to another thread's frame.
ghost use Rattle.std.specs.Prelude.{◌≡◌, option_and_then, IfOk};
ghost use Rattle.civl_tree.specs.Numbered.{IsNumbered};
ghost use Rattle.civl_goals.specs.Failed.{does};
ghost use Rattle.civl_goal_losses.specs.GoalLosses.{moment, other_loss, reached, spoiled_there};
ghost use Rattle.civl_goal_losses.specs.inner.Frames.{stood};

use crate::assuming::{Stand, activation, beside};
use crate::losses::{GoalLoss, Moment};
use crate::saying::{frame_of, note_holds};
use crate::stepping::{moment, reached};
use civl_bits::Value;
use civl_firing::Store;
use civl_layers::{Layered, program};
use civl_meaning::Activation;
use civl_outlines::Outline;
use civl_tree::{Memory, Program};
use std::alloc::Global;

/// Where the note of another thread's frame is false.
fn spoiled_there(
    program: &Program,
    outline: &Outline,
    other: Activation,
    here: Moment,
    there: Moment,
) -> Option<GoalLoss>
    requires numbered { IsNumbered program.now }
    ensures { result ≡ spoiled_there program.now outline.now other here there }
{
    if note_holds(program, outline, &there.store, &frame_of(&other)) {
        return None;
    }
    Some(GoalLoss::Interferes(here, there, other))
}

/// The same, of what is lent.
fn spoiled(
    alloc: Global,
    src: &Layered,
    outline: &Outline,
    store: &Store,
    frame: &Activation,
    other: &Stand<'_>,
    there: Moment,
) -> Result<Option<GoalLoss>, Memory>
    ensures { IfOk result (λ told. told ≡ spoiled_there src.now outline.now (stood other.now) (moment store.now frame.now) there) }
{
    match moment(alloc, store, frame) {
        Ok(here) => match activation(alloc, other) {
            Ok(other) => Ok(spoiled_there(program(src), outline, other, here, there)),
            Err(error) => Err(error),
        },
        Err(error) => Err(error),
    }
}

/// Where the call of a frame leads, if another thread's note is false there.
fn spoiled_by(
    alloc: Global,
    src: &Layered,
    outline: &Outline,
    store: &Store,
    frame: &Activation,
    other: &Stand<'_>,
    chosen: &[Value],
) -> Result<Option<GoalLoss>, Memory>
    ensures { IfOk result (λ told. told ≡ option_and_then (spoiled_there src.now outline.now (stood other.now) (moment store.now frame.now))
        (reached store.now frame.now (does src.now store.now frame.now chosen.now))) }
{
    match reached(alloc, src, store, frame, chosen)? {
        Some(there) => spoiled(alloc, src, outline, store, frame, other, there),
        None => Ok(None),
    }
}

/// The same, where what is assumed of the other thread's frame holds.
pub(crate) fn other_loss(
    alloc: Global,
    src: &Layered,
    outline: &Outline,
    store: &Store,
    frame: &Activation,
    stand: &Stand<'_>,
    other: &Stand<'_>,
    chosen: &[Value],
) -> Result<Option<GoalLoss>, Memory>
    requires same { frame.now ≡ stood stand.now }
    ensures { IfOk result (λ told. told ≡ other_loss src.now outline.now (stood other.now) store.now frame.now
        (does src.now store.now frame.now chosen.now)) }
{
    if beside(alloc, src, outline, store, stand, other)? {
        spoiled_by(alloc, src, outline, store, frame, other, chosen)
    } else {
        Ok(None)
    }
}
