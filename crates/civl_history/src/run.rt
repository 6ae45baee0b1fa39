// Schedules replayed, and told move by move.
ghost use Rattle.std.specs.Prelude.{◌≡◌, ◌+◌, ◌<◌, ◌^◌, length, IfOk};
ghost use Rattle.civl_meaning.specs.Step.{start};
ghost use Rattle.civl_script.specs.replays.Trace.{trace_of};
ghost use Rattle.civl_history.specs.History.{history, last_of, stopped_thread, thread_stands};
ghost use Rattle.civl_history.specs.inner.Spots.{AreSpots};

use crate::ahead::{ahead_of, stand_before};
use crate::moves::MadeMove;
use crate::replay::replay;
use crate::spots::{Spots, spots_of};
use crate::stand::Stand;
use civl_meaning::{Config, Move, Plain, Store, failing, places_of, start};
use civl_script::replays::Trace;
use civl_tree::{List, Memory};
use std::alloc::Global;

/// What a list of moves gives from the start of a plain program, move by move.
///
/// `moves` are those that were made, in their order, and `trace` is what [`run`](civl_script::replays::run) answers.
/// `stopped_at` is where the thread of the first move that wasn't made stands; `None` where all were made, and where
/// there is no such thread. `failing_at` is where the least failing thread stands, `None` where none fails.
#[derive(Drop)]
pub struct History {
    pub moves: List<MadeMove>,
    pub trace: Trace,
    pub stopped_at: Option<Stand>,
    pub failing_at: Option<Stand>,
}

/// The thread of the first move that isn't made, where so many are.
fn stopped_thread(moves: &[Move], moved: usize) -> Option<u32>
    ensures { result ≡ stopped_thread moves.now moved }
{
    if moved < moves.len() {
        Some(moves[moved].thread)
    } else {
        None
    }
}

/// Where the thread with this number stands, if it is there.
#[tactic(auto, using(crate::proofs::Seen::stood_before))]
fn thread_stands(
    plain: &Plain,
    spots: &Spots<'_>,
    config: &Config,
    thread: Option<u32>,
) -> Option<Stand>
    requires { AreSpots plain.now spots.now }
    ensures { result ≡ thread_stands plain.now config.now thread }
{
    let number = thread? as usize;
    if number < config.threads.len() {
        let thread = config.threads.get(number);
        Some(stand_before(ahead_of(plain, spots, thread)))
    } else {
        None
    }
}

/// Replays a schedule, and tells of each move that is made: steps of a plain program from its start in this store, one for
/// each move, up to the first that isn't made.
///
/// Each move is told with the thread that moved, where this stood before the move, what kind of step it took, and the values
/// that the move changed. The trace is that of [`run`](civl_script::replays::run). The number of declared threads plus the
/// number of moves is below 2 to the 32 minus 1, so that threads that are spawned have numbers. What stands at each place is
/// worked out once, so it takes time for the program's text and for the moves, and not for their product; for a move the
/// store's values are copied, and of these what changed is kept. (Small-step interleaving.)
///
/// # Errors
///
/// For want of memory; and where no `usize` says how many statements a body has, since no memory holds so many.
pub fn tell_moves(
    alloc: Global,
    plain: &Plain,
    store: &Store,
    moves: &List<Move>,
) -> Result<History, Memory>
    requires { length plain.now.program.threads + length moves.now + 1 < 2 ^ 32 }
    ensures moves { IfOk result (λ told. told.moves ≡ history plain.now (start plain.now store.now) moves.now) }
    ensures trace { IfOk result (λ told. told.trace ≡ trace_of plain.now store.now moves.now) }
    ensures stopped_at { IfOk result (λ told. told.stopped_at ≡ thread_stands plain.now (last_of plain.now store.now moves.now)
        (stopped_thread moves.now told.trace.moved)) }
    ensures failing_at { IfOk result (λ told. told.failing_at
        ≡ thread_stands plain.now (last_of plain.now store.now moves.now) told.trace.failing) }
{
    let places = places_of(alloc, plain)?;
    let spots = spots_of(alloc, plain)?;
    let mut config = start(alloc, plain, store)?;
    let moves = moves.as_slice();
    let (told, stopped) = replay(alloc, &mut config, plain, &places, &spots, moves)?;
    let moved = told.len();
    let failing = failing(&config, plain);
    let stopped_at = thread_stands(plain, &spots, &config, stopped_thread(moves, moved));
    let failing_at = thread_stands(plain, &spots, &config, failing);
    let Config {
        store: end,
        threads: _,
    } = config;
    Ok(History {
        moves: List::from_vec(told),
        trace: Trace {
            moved,
            stopped,
            failing,
            end,
        },
        stopped_at,
        failing_at,
    })
}
