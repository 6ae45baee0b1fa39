// By what values violate a goal of an outline.
ghost use Rattle.std.specs.Prelude.{◌≡◌, ◌+◌, None, length, drop, if◌then◌else◌, IfOk};
ghost use Rattle.civl_goals.specs.Failed.{assumed, behind_frame, does};
ghost use Rattle.civl_goals.specs.Variables.{choices_at};
ghost use Rattle.civl_goal_losses.specs.GoalLosses.{first_loss, goal_loss, start_loss, step_loss};
ghost use Rattle.civl_goal_losses.specs.inner.Asked.{loss_by};
ghost use Rattle.civl_goal_losses.specs.inner.Frames.{stood};

use crate::assuming::{Stand, activation, assumed};
use crate::beginning::{first_loss, linear_loss, spawn_loss, start_loss};
use crate::interfering::other_loss;
use crate::losing::{keep_loss, next_loss, safe_loss};
use crate::losses::GoalLoss;
use crate::reading::{locals_of, store_in, values_at};
use crate::stepping::copied;
use civl_bits::Value;
use civl_firing::Store;
use civl_goals::Goal;
use civl_layers::{Layered, program};
use civl_meaning::Activation;
use civl_outlines::Outline;
use civl_tree::Memory;
use std::alloc::Global;

/// What a frame's statement loses, by the goal.
fn loss_at(
    alloc: Global,
    src: &Layered,
    outline: &Outline,
    goal: Goal,
    store: &Store,
    stand: &Stand<'_>,
    frame: &Activation,
    chosen: &[Value],
    rest: &[Value],
) -> Result<Option<GoalLoss>, Memory>
    requires same { frame.now ≡ stood stand.now }
    ensures { IfOk result (λ told. told ≡ loss_by src.now outline.now goal rest.now store.now frame.now
        (does src.now store.now frame.now chosen.now)) }
{
    match goal {
        Goal::Safe(_, _) => safe_loss(alloc, program(src), store, frame),
        Goal::Keep(_, _) => keep_loss(alloc, src, outline, store, frame, chosen),
        Goal::Spawn(_, _) => spawn_loss(alloc, src, outline, store, frame, chosen),
        Goal::Next(_, _) => next_loss(alloc, src, outline, store, frame, chosen),
        Goal::Other(_, _, root, statement) => {
            let other = Stand {
                root,
                statement,
                locals: locals_of(program(src), root, rest),
            };
            other_loss(alloc, src, outline, store, frame, stand, &other, chosen)
        }
        Goal::Invariant => Ok(None),
        Goal::Thread(_) => Ok(None),
        Goal::Linear(_) => Ok(None),
    }
}

/// The same, where what is assumed of the frame holds.
fn loss_from(
    alloc: Global,
    src: &Layered,
    outline: &Outline,
    goal: Goal,
    store: &Store,
    stand: &Stand<'_>,
    chosen: &[Value],
    rest: &[Value],
) -> Result<Option<GoalLoss>, Memory>
    ensures { IfOk result (λ told. told ≡ (if assumed src.now outline.now store.now (stood stand.now)
        then loss_by src.now outline.now goal rest.now store.now (stood stand.now) (does src.now store.now (stood stand.now) chosen.now)
        else None)) }
{
    if !assumed(alloc, src, outline, store, stand)? {
        return Ok(None);
    }
    match activation(alloc, stand) {
        Ok(frame) => loss_at(
            alloc, src, outline, goal, store, stand, &frame, chosen, rest,
        ),
        Err(error) => Err(error),
    }
}

/// The same, of these values.
fn of_statement(
    alloc: Global,
    src: &Layered,
    outline: &Outline,
    goal: Goal,
    root: u32,
    statement: u32,
    values: &[Value],
) -> Result<Option<GoalLoss>, Memory>
    ensures { IfOk result (λ told. told ≡ step_loss src.now outline.now values.now root statement
        (loss_by src.now outline.now goal (drop (behind_frame src.now root + length (choices_at src.now root statement)) values.now))) }
{
    let given = values_at(alloc, program(src), root, statement, values)?;
    let stand = Stand {
        root,
        statement,
        locals: given.locals,
    };
    match store_in(alloc, program(src), values) {
        Ok(store) => loss_from(
            alloc,
            src,
            outline,
            goal,
            &store,
            &stand,
            given.chosen,
            given.rest,
        ),
        Err(error) => Err(error),
    }
}

/// The goal that initial stores meet the invariant.
fn of_invariant(
    alloc: Global,
    src: &Layered,
    outline: &Outline,
    values: &[Value],
) -> Result<Option<GoalLoss>, Memory>
    ensures { IfOk result (λ told. told ≡ start_loss src.now outline.now (record { values = values.now })) }
{
    match copied(alloc, values) {
        Ok(values) => start_loss(alloc, program(src), outline, Store { values }),
        Err(error) => Err(error),
    }
}

/// The goal that a declared thread may begin.
fn of_thread(
    alloc: Global,
    src: &Layered,
    outline: &Outline,
    number: u32,
    values: &[Value],
) -> Result<Option<GoalLoss>, Memory>
    ensures { IfOk result (λ told. told ≡ first_loss src.now outline.now number (record { values = values.now })) }
{
    match copied(alloc, values) {
        Ok(values) => first_loss(alloc, program(src), outline, number, Store { values }),
        Err(error) => Err(error),
    }
}

/// By what these values violate a goal of an outline, one for each variable of the goal in their order; nothing where they don't
/// violate it. The outline is one of the program.
///
/// # Errors
///
/// For want of memory.
#[tactic(auto, unfolding(crate::specs::GoalLosses::goal_loss))]
pub fn goal_loss(
    alloc: Global,
    src: &Layered,
    outline: &Outline,
    goal: Goal,
    values: &[Value],
) -> Result<Option<GoalLoss>, Memory>
    ensures { IfOk result (λ told. told ≡ goal_loss src.now outline.now goal values.now) }
{
    match goal {
        Goal::Invariant => of_invariant(alloc, src, outline, values),
        Goal::Thread(number) => of_thread(alloc, src, outline, number, values),
        Goal::Linear(action) => linear_loss(alloc, program(src), action, values),
        Goal::Safe(root, statement) => {
            of_statement(alloc, src, outline, goal, root, statement, values)
        }
        Goal::Keep(root, statement) => {
            of_statement(alloc, src, outline, goal, root, statement, values)
        }
        Goal::Spawn(root, statement) => {
            of_statement(alloc, src, outline, goal, root, statement, values)
        }
        Goal::Next(root, statement) => {
            of_statement(alloc, src, outline, goal, root, statement, values)
        }
        Goal::Other(root, statement, _, _) => {
            of_statement(alloc, src, outline, goal, root, statement, values)
        }
    }
}
