// Where the statement of a frame leads, and which procedure it spawns.
ghost use Rattle.std.specs.Prelude.{◌≡◌, IfOk};
ghost use Rattle.civl_meaning.specs.Table.{ArePlaces};
ghost use Rattle.civl_meaning.specs.Change.{new_frame};
ghost use Rattle.civl_meaning.specs.Layers.{topmost};
ghost use Rattle.civl_meaning.specs.Step.{step_of};
ghost use Rattle.civl_goals.specs.Failed.{does, first_frame};
ghost use Rattle.civl_goal_losses.specs.GoalLosses.{reached};
ghost use Rattle.civl_goal_losses.specs.inner.Moves.{alone, begins, first_moment, first_move, moment_of, moved, spawned, stepped};

use crate::losses::Moment;
use civl_bits::Value;
use civl_firing::Store;
use civl_firing::sorts::{push_locals, push_params};
use civl_layers::{Layered, program, top};
use civl_meaning::{
    Activation, Config, Move, Places, Plain, Running, State, Stepped, places_of, step,
};
use civl_tree::{List, Memory, Proc, Program};
use std::alloc::Global;

// ---- copies

/// A list of its own.
pub(crate) fn copied(alloc: Global, values: &[Value]) -> Result<List<Value>, Memory>
    ensures { IfOk result (λ all. all ≡ values.now) }
{
    let all = Vec::from_slice(alloc, values)?;
    Ok(List::from_vec(all))
}

/// A store of its own.
pub(crate) fn copied_store(alloc: Global, store: &Store) -> Result<Store, Memory>
    ensures { IfOk result (λ copy. copy ≡ store.now) }
{
    let values = copied(alloc, store.values.as_slice())?;
    Ok(Store { values })
}

/// A frame of its own.
pub(crate) fn copied_frame(alloc: Global, frame: &Activation) -> Result<Activation, Memory>
    ensures { IfOk result (λ copy. copy ≡ frame.now) }
{
    let locals = copied(alloc, frame.locals.as_slice())?;
    Ok(Activation {
        procedure: frame.procedure,
        place: frame.place,
        locals,
    })
}

/// A store and a frame in it, of their own.
pub(crate) fn moment(alloc: Global, store: &Store, frame: &Activation) -> Result<Moment, Memory>
    ensures { IfOk result (λ here. here ≡ record { store = store.now; frame = frame.now }) }
{
    match copied_store(alloc, store) {
        Ok(store) => match copied_frame(alloc, frame) {
            Ok(frame) => Ok(Moment { store, frame }),
            Err(error) => Err(error),
        },
        Err(error) => Err(error),
    }
}

/// The first frame of a call of the procedure with this number.
pub(crate) fn new_frame(
    alloc: Global,
    number: usize,
    proc: &Proc,
    args: &[Value],
) -> Result<Activation, Memory>
    ensures { IfOk result (λ frame. frame ≡ new_frame number proc.now args.now) }
{
    let mut locals = Vec::from_slice(alloc, args)?;
    push_params(&mut locals, proc.outs.as_slice())?;
    push_locals(&mut locals, proc.locals.as_slice())?;
    Ok(Activation {
        procedure: number,
        place: 0,
        locals: List::from_vec(locals),
    })
}

// ---- a step of a thread that is alone

/// One thread, in this frame.
fn alone(alloc: Global, here: Moment) -> Result<Config, Memory>
    ensures { IfOk result (λ config. config ≡ alone here.store here.frame) }
{
    let Moment { store, frame } = here;
    let mut threads = List::new(alloc);
    threads.push(Running {
        callee: 0,
        args: List::new(alloc),
        state: State::Inside(List::new(alloc), frame),
    })?;
    Ok(Config { store, threads })
}

/// The configuration behind a step of its first thread, if that is made.
fn step_first(
    alloc: Global,
    plain: &Plain,
    places: &Places<'_>,
    config: Config,
    chosen: &Move,
) -> Result<Option<Config>, Memory>
    requires { ArePlaces plain.now places.now }
    ensures { IfOk result (λ behind. behind ≡ moved (step_of plain.now config chosen.now)) }
{
    let mut config = config;
    match step(alloc, &mut config, plain, places, chosen)? {
        Stepped::Moved => Ok(Some(config)),
        Stepped::Blocked => Ok(None),
        Stepped::NoThread => Ok(None),
        Stepped::Ended => Ok(None),
        Stepped::Failing => Ok(None),
        Stepped::BadChoices => Ok(None),
    }
}

/// The configuration behind a step in a plain program of a thread that is alone in this frame.
fn step_alone(
    alloc: Global,
    plain: &Plain,
    here: Moment,
    chosen: &Move,
) -> Result<Option<Config>, Memory>
    ensures { IfOk result (λ behind. behind ≡ moved (step_of plain.now (alone here.store here.frame) chosen.now)) }
{
    match alone(alloc, here) {
        Ok(config) => match places_of(alloc, plain) {
            Ok(places) => step_first(alloc, plain, &places, config, chosen),
            Err(error) => Err(error),
        },
        Err(error) => Err(error),
    }
}

/// The same in the topmost program, with these values for the choices.
fn stepped(
    alloc: Global,
    src: &Layered,
    here: Moment,
    chosen: &Move,
) -> Result<Option<Config>, Memory>
    ensures { IfOk result (λ behind. behind ≡ moved (step_of (topmost src.now) (alone here.store here.frame) chosen.now)) }
{
    match top(alloc, src) {
        Ok(plain) => step_alone(alloc, &plain, here, chosen),
        Err(error) => Err(error),
    }
}

/// The move of the first thread with these values for the choices.
fn first_move(alloc: Global, chosen: &[Value]) -> Result<Move, Memory>
    ensures { IfOk result (λ made. made ≡ first_move chosen.now) }
{
    let choices = copied(alloc, chosen)?;
    Ok(Move { thread: 0, choices })
}

/// Behind the statement of a frame in the topmost program.
fn behind(
    alloc: Global,
    src: &Layered,
    store: &Store,
    frame: &Activation,
    chosen: &[Value],
) -> Result<Option<Config>, Memory>
    ensures { IfOk result (λ behind. behind ≡ stepped src.now store.now frame.now chosen.now) }
{
    match first_move(alloc, chosen) {
        Ok(chosen) => match moment(alloc, store, frame) {
            Ok(here) => stepped(alloc, src, here, &chosen),
            Err(error) => Err(error),
        },
        Err(error) => Err(error),
    }
}

// ---- what it came to

/// The moment of a thread with one frame.
fn moment_of(alloc: Global, store: &Store, state: &State) -> Result<Option<Moment>, Memory>
    ensures { IfOk result (λ found. found ≡ moment_of store.now state.now) }
{
    match state {
        State::Inside(below, frame) => {
            if !below.is_empty() {
                return Ok(None);
            }
            let here = moment(alloc, store, frame)?;
            Ok(Some(here))
        }
        State::Before => Ok(None),
        State::After => Ok(None),
    }
}

/// That of the first thread.
fn first_moment(alloc: Global, config: &Config) -> Result<Option<Moment>, Memory>
    ensures { IfOk result (λ found. found ≡ first_moment config.now) }
{
    match config.threads.as_slice().get(0) {
        Some(thread) => moment_of(alloc, &config.store, &thread.state),
        None => Ok(None),
    }
}

/// Where the statement of a frame leads in the topmost program, with these values for the choices.
pub(crate) fn reached(
    alloc: Global,
    src: &Layered,
    store: &Store,
    frame: &Activation,
    chosen: &[Value],
) -> Result<Option<Moment>, Memory>
    ensures { IfOk result (λ found. found ≡ reached store.now frame.now (does src.now store.now frame.now chosen.now)) }
{
    match behind(alloc, src, store, frame, chosen)? {
        Some(config) => first_moment(alloc, &config),
        None => Ok(None),
    }
}

/// The first frame of a thread.
fn begins(alloc: Global, program: &Program, thread: &Running) -> Result<Option<Activation>, Memory>
    ensures { IfOk result (λ found. found ≡ begins program.now thread.now) }
{
    match program.procs.as_slice().get(thread.callee) {
        Some(proc) => {
            let frame = new_frame(alloc, thread.callee, proc, thread.args.as_slice())?;
            Ok(Some(frame))
        }
        None => Ok(None),
    }
}

/// That of the second thread.
fn spawned(alloc: Global, program: &Program, config: &Config) -> Result<Option<Activation>, Memory>
    ensures { IfOk result (λ found. found ≡ spawned program.now config.now) }
{
    match config.threads.as_slice().get(1) {
        Some(thread) => begins(alloc, program, thread),
        None => Ok(None),
    }
}

/// The first frame of the thread that the statement of a frame spawns in the topmost program.
pub(crate) fn first_frame(
    alloc: Global,
    src: &Layered,
    store: &Store,
    frame: &Activation,
    chosen: &[Value],
) -> Result<Option<Activation>, Memory>
    ensures { IfOk result (λ found. found ≡ first_frame src.now (does src.now store.now frame.now chosen.now)) }
{
    match behind(alloc, src, store, frame, chosen)? {
        Some(config) => spawned(alloc, program(src), &config),
        None => Ok(None),
    }
}
