// The frames of a thread, with the statements that are still to run.
ghost use Rattle.std.specs.Prelude.{◌≡◌, ◌+◌, ◌-◌, ◌<◌, ◌++◌, [], ◌∷◌, length, map, slice_get, Some, IfOk, IfSome};
ghost use Rattle.civl_meaning.specs.Depth.{depth_of};
ghost use Rattle.civl_meaning.specs.Frame.{unnumbered, left_in, frame_in, bare_call, first_frame, frames_of};
ghost use Rattle.civl_meaning.specs.Remaining.{rest_of};

use crate::config::{Activation, Config, Plain, Running, State};
use crate::frame_copy::Frame;
use crate::leaving::copied;
use crate::remaining::{Numbered, rest_at};
use civl_tree::{List, Memory, Proc, Stmt, TryClone, copy_stmt};
use std::alloc::Global;

/// Copies of these statements, without their numbers.
fn copied_stmts(alloc: Global, rest: &[Numbered<'_>]) -> Result<List<Stmt>, Memory>
    ensures { IfOk result (λ stmts. stmts ≡ unnumbered (rest_of rest.now)) }
{
    let mut stmts = Vec::new(alloc);
    for item in rest {
        let copy = copy_stmt(alloc, item.stmt)?;
        stmts.push(copy)?;
    }
    Ok(List::from_vec(stmts))
}

/// What is still to run from a place of a procedure's body on.
fn left_in_body(alloc: Global, proc: &Proc, place: usize) -> Result<List<Stmt>, Memory>
    ensures { IfOk result (λ rest. rest ≡ left_in (Some proc.now) place) }
{
    let rest = rest_at(alloc, proc, place)?;
    copied_stmts(alloc, rest.as_slice())
}

/// The frame of a procedure.
fn frame_in(alloc: Global, plain: &Plain, frame: &Activation) -> Result<Frame, Memory>
    ensures { IfOk result (λ f. f ≡ frame_in plain.now frame.now) }
{
    let locals = copied(alloc, frame.locals.as_slice())?;
    let procs = plain.program.procs.as_slice();
    if frame.procedure >= procs.len() {
        return Ok(Frame {
            locals,
            rest: List::new(alloc),
        });
    }
    let rest = left_in_body(alloc, &procs[frame.procedure], frame.place)?;
    Ok(Frame { locals, rest })
}

/// The call of a procedure, written with no arguments and no results.
fn bare_call(alloc: Global, plain: &Plain, callee: usize) -> Result<List<Stmt>, Memory>
    ensures { IfOk result (λ rest. rest ≡ bare_call (slice_get plain.now.program.procs callee)) }
{
    let mut rest = Vec::new(alloc);
    let procs = plain.program.procs.as_slice();
    if callee >= procs.len() {
        return Ok(List::from_vec(rest));
    }
    let name = procs[callee].name.try_clone(alloc)?;
    let call = Stmt::Call(name, List::new(alloc), List::new(alloc));
    rest.push(call)?;
    Ok(List::from_vec(rest))
}

/// A thread's first frame.
fn first_frame(alloc: Global, plain: &Plain, thread: &Running) -> Result<Frame, Memory>
    ensures { IfOk result (λ f. f ≡ first_frame plain.now thread.now) }
{
    let locals = copied(alloc, thread.args.as_slice())?;
    match &thread.state {
        State::After => Ok(Frame {
            locals,
            rest: List::new(alloc),
        }),
        State::Before | State::Inside(_, _) => {
            let rest = bare_call(alloc, plain, thread.callee)?;
            Ok(Frame { locals, rest })
        }
    }
}

/// A thread's frame above the first one.
fn frame_above(
    alloc: Global,
    plain: &Plain,
    below: &[Activation],
    top: &Activation,
    at: usize,
) -> Result<Frame, Memory>
    requires { at < length below.now + 1 }
    ensures { IfOk result (λ f. slice_get (map (frame_in plain.now) below.now ++ frame_in plain.now top.now ∷ []) at ≡ Some f) }
{
    if at < below.len() {
        let frame = frame_in(alloc, plain, &below[at])?;
        return Ok(frame);
    }
    frame_in(alloc, plain, top)
}

/// A thread's frame at a place.
fn frame_at(alloc: Global, plain: &Plain, thread: &Running, at: usize) -> Result<Frame, Memory>
    requires { at < depth_of thread.now }
    ensures { IfOk result (λ f. slice_get (frames_of plain.now thread.now) at ≡ Some f) }
{
    match &thread.state {
        State::Before | State::After => first_frame(alloc, plain, thread),
        State::Inside(below, top) => {
            if at == 0 {
                let frame = first_frame(alloc, plain, thread)?;
                return Ok(frame);
            }
            frame_above(alloc, plain, below.as_slice(), top, at - 1)
        }
    }
}

/// A copy of a thread's frame at a place, 0 being the first.
///
/// `locals` are the procedure's parameters, outputs and locals, in this order, and `rest` are the statements that are
/// still to run, as they stand in the source: `yield`, `commit` and `intro`, which a plain program hasn't, are among
/// them, and a step passes over them. In a frame that waits in a call this call is the first of `rest`. In a thread's
/// first frame `locals` are the values of its arguments, and `rest` is its call, written with no arguments and no
/// results, until this has returned; then there is nothing.
///
/// The thread exists, and the place is below its depth.
///
/// # Errors
///
/// For want of memory; and where no `usize` says how many statements a body has, since no memory holds so many.
pub fn frame(
    alloc: Global,
    config: &Config,
    plain: &Plain,
    thread: u32,
    at: usize,
) -> Result<Frame, Memory>
    requires thread { thread < length config.now.threads }
    requires at { IfSome (slice_get config.now.threads thread) (λ t. at < depth_of t) }
    ensures { IfOk result (λ f. IfSome (slice_get config.now.threads thread) (λ t. slice_get (frames_of plain.now t) at ≡ Some f)) }
{
    frame_at(alloc, plain, config.threads.get(thread as usize), at)
}
