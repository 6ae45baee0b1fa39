// Initial stores without the invariant, first frames without their notes, and permissions that are lost.
ghost use Rattle.std.specs.Prelude.{◌≡◌, option_and_then, IfOk};
ghost use Rattle.civl_tree.specs.Numbered.{IsNumbered};
ghost use Rattle.civl_firing.specs.Eval.{values_of};
ghost use Rattle.civl_firing.specs.Scope.{global_values};
ghost use Rattle.civl_meaning.specs.Change.{new_frame};
ghost use Rattle.civl_goals.specs.Failed.{does, thread_frame};
ghost use Rattle.civl_goal_losses.specs.GoalLosses.{as_loss, begin_loss, first_loss, linear_loss, spawn_loss, start_loss, thread_loss};

use crate::losses::{GoalLoss, Moment};
use crate::saying::{frame_of, invariant_holds, note_holds};
use crate::stepping::{copied_store, first_frame, new_frame};
use civl_assumed::is_initial;
use civl_bits::Value;
use civl_clashes::{Violation, linear_violation};
use civl_firing::Store;
use civl_firing::expressions::values;
use civl_firing::names::proc;
use civl_firing::setting::at_start;
use civl_layers::{Layered, program};
use civl_meaning::Activation;
use civl_outlines::Outline;
use civl_tree::{Memory, Proc, Program, Thread};
use std::alloc::Global;

/// An initial store in which the outline's invariant is false.
pub(crate) fn start_loss(
    alloc: Global,
    program: &Program,
    outline: &Outline,
    store: Store,
) -> Result<Option<GoalLoss>, Memory>
    ensures { IfOk result (λ told. told ≡ start_loss program.now outline.now store) }
{
    if invariant_holds(program, outline, &store) {
        return Ok(None);
    }
    match is_initial(alloc, program, &store) {
        Ok(initial) => {
            if initial {
                Ok(Some(GoalLoss::Starts(store)))
            } else {
                Ok(None)
            }
        }
        Err(error) => Err(error),
    }
}

/// A first frame, of which its first note is false.
fn begin_loss(program: &Program, outline: &Outline, here: Moment) -> Option<GoalLoss>
    requires numbered { IsNumbered program.now }
    ensures { result ≡ begin_loss program.now outline.now here.store here.frame }
{
    if note_holds(program, outline, &here.store, &frame_of(&here.frame)) {
        return None;
    }
    Some(GoalLoss::Begins(here))
}

/// The first frame of the procedure that the statement of a frame spawns, if its note is false.
pub(crate) fn spawn_loss(
    alloc: Global,
    src: &Layered,
    outline: &Outline,
    store: &Store,
    frame: &Activation,
    chosen: &[Value],
) -> Result<Option<GoalLoss>, Memory>
    ensures { IfOk result (λ told. told ≡ spawn_loss src.now outline.now store.now frame.now
        (does src.now store.now frame.now chosen.now)) }
{
    match first_frame(alloc, src, store, frame, chosen)? {
        Some(frame) => match copied_store(alloc, store) {
            Ok(store) => Ok(begin_loss(program(src), outline, Moment { store, frame })),
            Err(error) => Err(error),
        },
        None => Ok(None),
    }
}

// ---- threads

/// The first frame of a declared thread that calls this procedure, which has this number.
fn called_frame(
    alloc: Global,
    program: &Program,
    store: &Store,
    thread: &Thread,
    number: usize,
    proc: &Proc,
) -> Result<Activation, Memory>
    ensures { IfOk result (λ frame. frame ≡ new_frame number proc.now
        (values_of (global_values program.now.globals store.now) thread.now.args)) }
{
    let setting = at_start(program.globals.as_slice(), store);
    match values(alloc, &setting, thread.args.as_slice()) {
        Ok(args) => new_frame(alloc, number, proc, args.as_slice()),
        Err(error) => Err(error),
    }
}

/// The first frame of a declared thread in a store.
fn thread_frame(
    alloc: Global,
    program: &Program,
    store: &Store,
    thread: &Thread,
) -> Result<Option<Activation>, Memory>
    ensures { IfOk result (λ found. found ≡ thread_frame program.now store.now thread.now) }
{
    let number = proc(program.procs.as_slice(), &thread.callee);
    match program.procs.as_slice().get(number) {
        Some(proc) => {
            let frame = called_frame(alloc, program, store, thread, number, proc)?;
            Ok(Some(frame))
        }
        None => Ok(None),
    }
}

/// That frame, if its first note is false.
fn thread_loss(
    alloc: Global,
    program: &Program,
    outline: &Outline,
    store: Store,
    thread: &Thread,
) -> Result<Option<GoalLoss>, Memory>
    requires numbered { IsNumbered program.now }
    ensures { IfOk result (λ told. told ≡ thread_loss program.now outline.now store thread.now) }
{
    match thread_frame(alloc, program, &store, thread)? {
        Some(frame) => Ok(begin_loss(program, outline, Moment { store, frame })),
        None => Ok(None),
    }
}

/// The same of the thread with this number, in an initial store.
pub(crate) fn first_loss(
    alloc: Global,
    program: &Program,
    outline: &Outline,
    number: u32,
    store: Store,
) -> Result<Option<GoalLoss>, Memory>
    requires numbered { IsNumbered program.now }
    ensures { IfOk result (λ told. told ≡ first_loss program.now outline.now number store) }
{
    match is_initial(alloc, program, &store) {
        Ok(initial) => {
            if !initial {
                return Ok(None);
            }
            match program.threads.as_slice().get(number as usize) {
                Some(thread) => thread_loss(alloc, program, outline, store, thread),
                None => Ok(None),
            }
        }
        Err(error) => Err(error),
    }
}

// ---- permissions

/// A loss of K2, as that of a goal.
fn as_loss(violation: Violation) -> Option<GoalLoss>
    ensures { result ≡ as_loss violation }
{
    match violation {
        Violation::Loses(store, instance, effect, loss) => {
            Some(GoalLoss::Loses(store, instance, effect, loss))
        }
        Violation::Starts(_) => None,
        Violation::Clashes(_, _) => None,
        Violation::Spoils(_, _) => None,
        Violation::Reveals(_, _) => None,
        Violation::Waits(_, _) => None,
        Violation::Strays(_, _, _) => None,
    }
}

/// The same, where there is one.
fn found_loss(found: Option<Violation>) -> Option<GoalLoss>
    ensures { result ≡ option_and_then as_loss found }
{
    match found {
        Some(violation) => as_loss(violation),
        None => None,
    }
}

/// The permission that an action of the top layer alone loses.
pub(crate) fn linear_loss(
    alloc: Global,
    program: &Program,
    action: u32,
    values: &[Value],
) -> Result<Option<GoalLoss>, Memory>
    ensures { IfOk result (λ told. told ≡ linear_loss program.now action values.now) }
{
    match linear_violation(alloc, program, program.layers, action, values) {
        Ok(found) => Ok(found_loss(found)),
        Err(error) => Err(error),
    }
}
