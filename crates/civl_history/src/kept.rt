// What is kept of a configuration before a move.
ghost use Rattle.std.specs.Prelude.{◌≡◌, ◌<◌, length, slice_get, IfOk, IfSome, [], slice_get};
ghost use Rattle.civl_meaning.specs.Change.{caller_of};
ghost use Rattle.civl_history.specs.History.{locals_of};
ghost use Rattle.civl_history.specs.inner.Spots.{AreSpots};
ghost use Rattle.civl_history.specs.inner.Ahead.{said, below_of, frame_kept, locals_kept, IsKept};

use crate::ahead::{Ahead, ahead_of};
use crate::spots::Spots;
use civl_bits::Value;
use civl_meaning::{Activation, Config, Plain, State};
use civl_tree::{List, Memory};
use std::alloc::Global;

/// What is kept of a configuration before a move of one of its threads: what lies ahead of this, how many threads there
/// are, how many frames stand below its topmost one, the store's values, and the locals that its step may change.
#[derive(Drop)]
pub(crate) struct Kept<'p> {
    pub ahead: Ahead<'p>,
    pub threads: usize,
    pub below: usize,
    pub store: List<Value>,
    pub locals: List<Value>,
}

/// A copy of some values.
fn copied(alloc: Global, values: &[Value]) -> Result<List<Value>, Memory>
    ensures { IfOk result (λ copy. copy ≡ values.now) }
{
    let values = Vec::from_slice(alloc, values)?;
    Ok(List::from_vec(values))
}

/// The locals of the frame below the topmost one, where there is one above the thread's first.
fn caller_locals(below: &[Activation]) -> &[Value]
    ensures { result.now ≡ locals_of (caller_of below.now) }
{
    match below.last() {
        None => &[],
        Some(frame) => frame.locals.as_slice(),
    }
}

/// The locals that a step may change, of these frames.
fn frame_locals<'a>(below: &'a [Activation], top: &'a Activation, ahead: Ahead<'_>) -> &'a [Value]
    ensures { result.now ≡ frame_kept below.now top.now (said ahead.entry) }
{
    match ahead {
        Ahead::Exit(_) => caller_locals(below),
        Ahead::Begins(_) | Ahead::Statement(_, _) | Ahead::Ended(_) => top.locals.as_slice(),
    }
}

/// The locals that a step may change.
fn own_locals<'a>(state: &'a State, ahead: Ahead<'_>) -> &'a [Value]
    ensures { result.now ≡ locals_kept state.now (said ahead.entry) }
{
    match state {
        State::Inside(below, top) => frame_locals(below.as_slice(), top, ahead),
        State::Before | State::After => &[],
    }
}

/// How many frames stand below the topmost one.
fn frames_below(state: &State) -> usize
    ensures { result ≡ below_of state.now }
{
    match state {
        State::Inside(below, _) => below.len(),
        State::Before | State::After => 0,
    }
}

/// What is kept of a configuration before a move of this thread.
pub(crate) fn keep<'p>(
    alloc: Global,
    plain: &Plain,
    spots: &Spots<'p>,
    config: &Config,
    at: usize,
) -> Result<Kept<'p>, Memory>
    requires spots { AreSpots plain.now spots.now }
    requires there { at < length config.now.threads }
    ensures { IfOk result (λ kept. IfSome (slice_get config.now.threads at) (λ thread. IsKept plain.now config.now thread kept)) }
{
    let thread = config.threads.get(at);
    let ahead = ahead_of(plain, spots, thread);
    let store = copied(alloc, config.store.values.as_slice())?;
    let locals = copied(alloc, own_locals(&thread.state, ahead))?;
    Ok(Kept {
        ahead,
        threads: config.threads.len(),
        below: frames_below(&thread.state),
        store,
        locals,
    })
}
