// What a schedule of an accepted program is lifted to.
ghost use Rattle.std.specs.Prelude.{◌≡◌, ◌&&◌, is_none, is_some, ◌+◌, ◌<◌, ◌≤◌, ◌^◌, length, All};
ghost use Rattle.civl_firing.specs.Stores.{IsStore};
ghost use Rattle.civl_meaning.specs.Failing.{IsMove};
ghost use Rattle.civl_meaning.specs.Initial.{IsInitial};
ghost use Rattle.civl_meaning.specs.Layers.{lowest, topmost};
ghost use Rattle.civl_script.specs.replays.Trace.{trace_of};
ghost use Rattle.civl_reduction.specs.simulation.Followed.{IsAccepted as IsSound};
ghost use Rattle.civl_lifting.specs.Lifted.{FailsBy};
ghost use Rattle.civl_frontend.specs.Told.{IsJudged};
ghost use Rattle.civl_lift_command.specs.Lifting.{CanBeLifted};
ghost use Rattle.civl_lift_command.specs.Outcome.{Raises, telling};

use crate::judged::{lifted, not_failing, not_initial, spent};
use civl_assumed::is_initial;
use civl_frontend::Judged;
use civl_layers::{Layered, low, program, top};
use civl_lifting::{Lifted, lift};
use civl_meaning::{Move, Store};
use civl_script::replays::{Trace, run};
use civl_tree::List;
use std::alloc::Global;

/// Whether all moves were made, and some thread fails at their end.
fn is_failure(trace: &Trace) -> bool
    ensures { result ≡ (is_none trace.now.stopped && is_some trace.now.failing) }
{
    trace.stopped.is_none() && trace.failing.is_some()
}

/// What is written of moves of the topmost program that run to a failing configuration, and are no more than were given.
fn raised(
    alloc: Global,
    src: &Layered,
    store: &Store,
    given: &List<Move>,
    moves: &List<Move>,
) -> Judged
    requires given { CanBeLifted src.now store.now given.now }
    requires fails { FailsBy (topmost src.now) store.now moves.now }
    requires fewer { length moves.now ≤ length given.now }
    requires few { length src.now.threads + length given.now + 1 < 2 ^ 32 }
    ensures { IsJudged telling (Raises src.now store.now given.now) result }
{
    let Ok(plain) = top(alloc, src) else {
        return Judged::wanting();
    };
    let Ok(trace) = run(alloc, &plain, store, moves) else {
        return Judged::wanting();
    };
    lifted(alloc, moves, trace.failing.unwrap())
}

/// Lifts a schedule that fails in the lowest program.
fn raise(alloc: Global, src: &Layered, store: &Store, moves: &List<Move>) -> Judged
    requires sound { IsSound src.now }
    requires given { CanBeLifted src.now store.now moves.now }
    requires few { length src.now.threads + length moves.now + 1 < 2 ^ 32 }
    ensures { IsJudged telling (Raises src.now store.now moves.now) result }
{
    match lift(alloc, src, store, moves) {
        Ok(Lifted::Fails(lifted)) => raised(alloc, src, store, moves, &lifted),
        Ok(Lifted::Spent(step, thread, _unfinished)) => spent(alloc, step, thread),
        Err(_) => Judged::wanting(),
    }
}

/// What is found of moves by their trace in the lowest program.
fn judge_trace(
    alloc: Global,
    src: &Layered,
    store: &Store,
    moves: &List<Move>,
    trace: &Trace,
) -> Judged
    requires sound { IsSound src.now }
    requires initial { IsInitial src.now store.now }
    requires moves { All IsMove moves.now }
    requires few { length src.now.threads + length moves.now + 1 < 2 ^ 32 }
    requires trace { trace.now ≡ trace_of (lowest src.now) store.now moves.now }
    ensures { IsJudged telling (Raises src.now store.now moves.now) result }
{
    if is_failure(trace) {
        raise(alloc, src, store, moves)
    } else {
        not_failing(alloc, trace.moved)
    }
}

/// What is found of moves from an initial store.
fn judge_moves(alloc: Global, src: &Layered, store: &Store, moves: &List<Move>) -> Judged
    requires sound { IsSound src.now }
    requires initial { IsInitial src.now store.now }
    requires moves { All IsMove moves.now }
    requires few { length src.now.threads + length moves.now + 1 < 2 ^ 32 }
    ensures { IsJudged telling (Raises src.now store.now moves.now) result }
{
    let Ok(plain) = low(alloc, src) else {
        return Judged::wanting();
    };
    let Ok(trace) = run(alloc, &plain, store, moves) else {
        return Judged::wanting();
    };
    judge_trace(alloc, src, store, moves, &trace)
}

/// What is found of a store and of moves, for a program that keeps all static rules and all of whose conditions hold. The threads of the
/// program and the moves together are fewer than 2^32 less one.
pub(crate) fn judge_schedule(
    alloc: Global,
    src: &Layered,
    store: &Store,
    moves: &List<Move>,
) -> Judged
    requires sound { IsSound src.now }
    requires fits { IsStore src.now.globals store.now }
    requires moves { All IsMove moves.now }
    requires few { length src.now.threads + length moves.now + 1 < 2 ^ 32 }
    ensures { IsJudged telling (Raises src.now store.now moves.now) result }
{
    let Ok(starts) = is_initial(alloc, program(src), store) else {
        return Judged::wanting();
    };
    if starts {
        judge_moves(alloc, src, store, moves)
    } else {
        not_initial()
    }
}
