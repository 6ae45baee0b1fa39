// What a step does at the exit of a procedure, and what it does by the place of a thread.
ghost use Rattle.std.specs.Prelude.{◌≡◌, slice_get, option_map, IfOk};
ghost use Rattle.civl_tree.specs.declared.stmt.Stmt.{out-Stmt};
ghost use Rattle.civl_meaning.specs.Found.{spot, Fits};
ghost use Rattle.civl_meaning.specs.Table.{ArePlaces};
ghost use Rattle.civl_meaning.specs.Change.{returned_layer, returned_at, returned, done_by, outs_in, spot_doing, proc_doing, caller_of, change_of};

use crate::change::{Standing, first_call, frame_targets, statement, write_results};
use crate::config::{Activation, Change, Plain, Running, State, Stepped};
use crate::filling::found_at;
use crate::found::Found;
use crate::meant::of_proc;
use crate::slices::{behind, first};
use crate::table::Places;
use civl_bits::Value;
use civl_firing::Store;
use civl_tree::{List, Memory, Proc, Stmt};
use std::alloc::Global as Alloc;

/// A copy of some values.
pub fn copied(alloc: Alloc, values: &[Value]) -> Result<List<Value>, Memory>
    ensures { IfOk result (λ r. r ≡ values.now) }
{
    let values = Vec::from_slice(alloc, values)?;
    Ok(List::from_vec(values))
}

/// A copy of a frame.
pub fn copied_frame(alloc: Alloc, frame: &Activation) -> Result<Activation, Memory>
    ensures { IfOk result (λ f. f ≡ frame.now) }
{
    let locals = copied(alloc, frame.locals.as_slice())?;
    Ok(Activation {
        procedure: frame.procedure,
        place: frame.place,
        locals,
    })
}

/// The locals behind a call that stands here.
fn received(
    alloc: Alloc,
    proc: &Proc,
    locals: &[Value],
    outs: &[Value],
    stmt: &Stmt,
) -> Result<List<Value>, Memory>
    ensures { IfOk result (λ r. r ≡ returned_layer proc.now locals.now outs.now (out-Stmt stmt.now)) }
{
    let mut after = Vec::from_slice(alloc, locals)?;
    match stmt {
        Stmt::Call(_, _, results) => {
            write_results(&frame_targets(proc), &mut after, results.as_slice(), outs);
            Ok(List::from_vec(after))
        }
        _ => Ok(List::from_vec(after)),
    }
}

/// A frame behind the call that was found at its place.
fn returned_found(
    alloc: Alloc,
    proc: &Proc,
    outs: &[Value],
    frame: &Activation,
    found: Option<Found<'_>>,
) -> Result<Activation, Memory>
    ensures { IfOk result (λ f. f ≡ returned_at frame.now outs.now proc.now (spot found.entry)) }
{
    match found {
        None => copied_frame(alloc, frame),
        Some(found) => {
            let locals = received(alloc, proc, frame.locals.as_slice(), outs, found.stmt)?;
            Ok(Activation {
                procedure: frame.procedure,
                place: found.next,
                locals,
            })
        }
    }
}

/// A frame that waits in a call, after the call gave these outputs.
fn returned(
    alloc: Alloc,
    plain: &Plain,
    places: &Places<'_>,
    outs: &[Value],
    frame: &Activation,
) -> Result<Activation, Memory>
    requires { ArePlaces plain.now places.now }
    ensures { IfOk result (λ f. f ≡ returned plain.now outs.now frame.now) }
{
    let procs = plain.program.procs.as_slice();
    if frame.procedure >= procs.len() {
        let frame = copied_frame(alloc, frame)?;
        return Ok(frame);
    }
    let proc = &procs[frame.procedure];
    let found = found_at(plain, places, frame.procedure, proc, frame.place);
    returned_found(alloc, proc, outs, frame, found)
}

/// The end of the topmost frame, above these.
fn leave(
    alloc: Alloc,
    plain: &Plain,
    places: &Places<'_>,
    outs: &[Value],
    below: &[Activation],
) -> Result<Change, Memory>
    requires { ArePlaces plain.now places.now }
    ensures { IfOk result (λ c. c ≡ Change.Leaves (option_map (returned plain.now outs.now) (caller_of below.now))) }
{
    if below.is_empty() {
        return Ok(Change::Leaves(None));
    }
    let frame = returned(alloc, plain, places, outs, &below[below.len() - 1])?;
    Ok(Change::Leaves(Some(frame)))
}

/// The outputs among a frame's locals.
pub fn outputs<'a>(proc: &Proc, locals: &'a [Value]) -> &'a [Value]
    ensures { result.now ≡ outs_in proc.now locals.now }
{
    first(behind(locals, proc.params.len()), proc.outs.len())
}

/// What is found at the place of the topmost frame, above these.
fn found_change(
    alloc: Alloc,
    standing: &Standing<'_>,
    places: &Places<'_>,
    store: &Store,
    chosen: &[Value],
    below: &[Activation],
    frame: &Activation,
    found: Option<Found<'_>>,
) -> Result<Change, Memory>
    requires places { ArePlaces standing.now.plain.now places.now }
    requires frame { standing.now.locals.now ≡ frame.now.locals }
    requires found { Fits found }
    ensures { IfOk result (λ c. c ≡ done_by standing.now.plain.now store.now chosen.now (spot_doing standing.now.plain.now (caller_of below.now) frame.now standing.now.proc.now (spot found.entry))) }
{
    match found {
        None => {
            let outs = outputs(standing.proc, standing.locals);
            leave(alloc, standing.plain, places, outs, below)
        }
        Some(found) => { statement(alloc, standing, store, chosen, &found) }
    }
}

/// A step of the topmost frame, above these.
fn top_change(
    alloc: Alloc,
    plain: &Plain,
    places: &Places<'_>,
    store: &Store,
    chosen: &[Value],
    below: &[Activation],
    frame: &Activation,
) -> Result<Change, Memory>
    requires { ArePlaces plain.now places.now }
    ensures { IfOk result (λ c. c ≡ done_by plain.now store.now chosen.now (proc_doing plain.now (caller_of below.now) frame.now (slice_get plain.now.program.procs frame.now.procedure))) }
{
    let procs = plain.program.procs.as_slice();
    if frame.procedure >= procs.len() {
        return Ok(Change::Stays(Stepped::Blocked));
    }
    let proc = &procs[frame.procedure];
    let found = found_at(plain, places, frame.procedure, proc, frame.place);
    let standing = Standing {
        plain,
        proc,
        locals: frame.locals.as_slice(),
    };
    found_change(alloc, &standing, places, store, chosen, below, frame, found)
}

/// What a step of this thread does, with these values for the choices.
pub fn change_of(
    alloc: Alloc,
    plain: &Plain,
    places: &Places<'_>,
    store: &Store,
    chosen: &[Value],
    thread: &Running,
) -> Result<Change, Memory>
    requires { ArePlaces plain.now places.now }
    ensures { IfOk result (λ c. c ≡ change_of plain.now store.now chosen.now thread.now) }
{
    match &thread.state {
        State::After => Ok(Change::Stays(Stepped::Ended)),
        State::Before => {
            let callee = of_proc(plain, thread.callee);
            first_call(alloc, plain, store, chosen, callee, thread.args.as_slice())
        }
        State::Inside(below, frame) => {
            top_change(alloc, plain, places, store, chosen, below.as_slice(), frame)
        }
    }
}
