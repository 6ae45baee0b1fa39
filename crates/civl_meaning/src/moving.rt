// A step of a configuration.
ghost use Rattle.std.specs.Prelude.{◌≡◌, ◌<◌, ◌≤◌, ◌+◌, ◌-◌, ◌++◌, ◌∷◌, [], length, take, slice_get, slice_set, Some, IfOk, IfErr, IfSome, OnErr};
ghost use Rattle.civl_meaning.specs.Table.{ArePlaces};
ghost use Rattle.civl_meaning.specs.Step.{goes_on, enters, left, moves_on, step_with, step_of};

use crate::config::{Activation, Change, Config, Move, Plain, Running, State, Stepped};
use crate::leaving::change_of;
use crate::table::Places;
use civl_bits::Value;
use civl_tree::{List, Memory};
use std::alloc::Global;
use std::mem;

/// A thread that stands in for another one.
fn nobody(alloc: Global) -> Running {
    Running {
        callee: 0,
        args: List::new(alloc),
        state: State::After,
    }
}

/// Puts a thread in the place of another, which is answered.
fn replace(alloc: Global, threads: &mut List<Running>, at: usize, thread: Running) -> Running
    requires { at < length threads.old }
    ensures old { slice_get threads.old at ≡ Some result }
    ensures new { threads.new ≡ slice_set threads.old at thread }
{
    let mut items = mem::replace(threads, List::new(alloc)).into_vec();
    let old = mem::replace(&mut items[at], thread);
    *threads = List::from_vec(items);
    old
}

/// Puts a thread in a place.
fn put(
    alloc: Global,
    threads: &mut List<Running>,
    at: usize,
    callee: usize,
    args: List<Value>,
    state: State,
)
    requires { at < length threads.old }
    ensures { threads.new ≡ slice_set threads.old at (record { callee = callee; args = args; state = state }) }
{
    replace(
        alloc,
        threads,
        at,
        Running {
            callee,
            args,
            state,
        },
    );
}

/// The topmost frame with other locals and at another place.
fn goes_on(state: State, locals: List<Value>, place: usize) -> State
    ensures { result ≡ goes_on state locals place }
{
    match state {
        State::Inside(below, frame) => State::Inside(
            below,
            Activation {
                procedure: frame.procedure,
                place,
                locals,
            },
        ),
        State::Before | State::After => State::After,
    }
}

/// The topmost frame at another place.
fn moves_on(state: State, place: usize) -> State
    ensures { result ≡ moves_on state place }
{
    match state {
        State::Inside(below, frame) => State::Inside(
            below,
            Activation {
                procedure: frame.procedure,
                place,
                locals: frame.locals,
            },
        ),
        State::Before | State::After => State::After,
    }
}

/// A frame behind others; where memory is wanting, both as they were.
fn behind(
    below: List<Activation>,
    frame: Activation,
    place: usize,
) -> Result<List<Activation>, (List<Activation>, Activation)>
    ensures ok { IfOk result (λ r. r ≡ below ++ (record { procedure = frame.procedure; place = place; locals = frame.locals }) ∷ []) }
    ensures err { IfErr result (λ r. r ≡ (below, frame)) }
{
    let mut items = below.into_vec();
    let Activation {
        procedure,
        place: stood,
        locals,
    } = frame;
    let waiting = Activation {
        procedure,
        place,
        locals,
    };
    match items.push(waiting) {
        Ok(()) => Ok(List::from_vec(items)),
        Err(failed) => {
            let Activation {
                procedure,
                place: _,
                locals,
            } = failed.value;
            let back = Activation {
                procedure,
                place: stood,
                locals,
            };
            Err((List::from_vec(items), back))
        }
    }
}

/// A frame on top, and the one below at a place; where memory is wanting, the thread as it was.
fn enters(alloc: Global, state: State, top: Activation, place: usize) -> Result<State, State>
    ensures ok { IfOk result (λ after. after ≡ enters state top place) }
    ensures err { IfErr result (λ back. back ≡ state) }
{
    match state {
        State::Before => Ok(State::Inside(List::new(alloc), top)),
        State::After => Ok(State::After),
        State::Inside(below, frame) => match behind(below, frame, place) {
            Ok(below) => Ok(State::Inside(below, top)),
            Err((below, frame)) => Err(State::Inside(below, frame)),
        },
    }
}

/// Frames without the last one.
fn without_last(frames: List<Activation>) -> List<Activation>
    ensures { result ≡ take (length frames - 1) frames }
{
    let mut items = frames.into_vec();
    items.pop();
    List::from_vec(items)
}

/// Without the topmost frame, above this one.
fn left(state: State, caller: Option<Activation>) -> State
    ensures { result ≡ left state caller }
{
    match state {
        State::Before | State::After => State::After,
        State::Inside(below, _) => match caller {
            None => State::After,
            Some(frame) => State::Inside(without_last(below), frame),
        },
    }
}

/// Makes a change of a thread.
#[tactic(auto, using(crate::proofs::Putting::putting))]
fn apply(alloc: Global, config: &mut Config, at: usize, change: Change) -> Result<Stepped, Memory>
    requires { at < length config.old.threads }
    ensures ok { IfOk result (λ a. IfSome (slice_get config.old.threads at) (λ thread. (a, config.new) ≡ step_with config.old at thread change)) }
    ensures err { OnErr result (config.new ≡ config.old) }
    ensures more { length config.new.threads ≤ length config.old.threads + 1 }
{
    let Running {
        callee,
        args,
        state,
    } = replace(alloc, &mut config.threads, at, nobody(alloc));
    match change {
        Change::Stays(answer) => {
            put(alloc, &mut config.threads, at, callee, args, state);
            Ok(answer)
        }
        Change::Goes(locals, place) => {
            let state = goes_on(state, locals, place);
            put(alloc, &mut config.threads, at, callee, args, state);
            Ok(Stepped::Moved)
        }
        Change::Acts(store, locals, place) => {
            let state = goes_on(state, locals, place);
            put(alloc, &mut config.threads, at, callee, args, state);
            config.store = store;
            Ok(Stepped::Moved)
        }
        Change::Enters(frame, place) => match enters(alloc, state, frame, place) {
            Ok(state) => {
                put(alloc, &mut config.threads, at, callee, args, state);
                Ok(Stepped::Moved)
            }
            Err(state) => {
                put(alloc, &mut config.threads, at, callee, args, state);
                Err(Memory)
            }
        },
        Change::Leaves(caller) => {
            let state = left(state, caller);
            put(alloc, &mut config.threads, at, callee, args, state);
            Ok(Stepped::Moved)
        }
        Change::Spawns(thread, place) => match config.threads.push(thread) {
            Ok(()) => {
                let state = moves_on(state, place);
                put(alloc, &mut config.threads, at, callee, args, state);
                Ok(Stepped::Moved)
            }
            Err(memory) => {
                put(alloc, &mut config.threads, at, callee, args, state);
                Err(memory)
            }
        },
    }
}

/// One step of a configuration: the thread of the move takes one, with the move's values for the choices of an action
/// that it calls. After any other answer than `Moved`, and for want of memory, the configuration is as it was. There is
/// one thread more at most. What stands at its place is looked up in the table of the program's places, which
/// [`places_of`](crate::places_of) makes, so that a step takes no longer in a longer body.
///
/// # Errors
///
/// For want of memory.
pub fn step(
    alloc: Global,
    config: &mut Config,
    plain: &Plain,
    places: &Places<'_>,
    chosen: &Move,
) -> Result<Stepped, Memory>
    requires { ArePlaces plain.now places.now }
    ensures ok { IfOk result (λ a. (a, config.new) ≡ step_of plain.now config.old chosen.now) }
    ensures err { OnErr result (config.new ≡ config.old) }
    ensures more { length config.new.threads ≤ length config.old.threads + 1 }
{
    let at = chosen.thread as usize;
    if at >= config.threads.len() {
        return Ok(Stepped::NoThread);
    }
    let thread = config.threads.get(at);
    let change = change_of(
        alloc,
        plain,
        places,
        &config.store,
        chosen.choices.as_slice(),
        thread,
    )?;
    apply(alloc, config, at, change)
}
