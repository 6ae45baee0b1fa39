// Schedules replayed.
ghost use Rattle.std.specs.Prelude.{◌≡◌, ◌+◌, ◌<◌, ◌≤◌, ◌^◌, length, IfOk};
ghost use Rattle.civl_meaning.specs.Run.{run_of};
ghost use Rattle.civl_meaning.specs.Table.{ArePlaces};
ghost use Rattle.civl_script.specs.replays.Trace.{trace_of};

use crate::replays::trace::Trace;
use civl_meaning::{Config, Move, Places, Plain, Stepped, Store, failing, places_of, start, step};
use civl_tree::{List, Memory};
use std::alloc::Global;

/// Makes these moves, up to the first that isn't made: how many were made, and the answer of the next.
fn replay(
    alloc: Global,
    config: &mut Config,
    plain: &Plain,
    places: &Places<'_>,
    moves: &[Move],
) -> Result<(usize, Option<Stepped>), Memory>
    requires { ArePlaces plain.now places.now }
    ensures run { IfOk result (λ r. (r.0, r.1, config.new) ≡ run_of plain.now moves.now 0 config.old) }
    ensures few { length config.new.threads ≤ length config.old.threads + length moves.now }
{
    let mut moved = 0;
    for chosen in moves {
        let answer = step(alloc, config, plain, places, chosen)?;
        if answer != Stepped::Moved {
            return Ok((moved, Some(answer)));
        }
        moved += 1;
    }
    Ok((moved, None))
}

/// Replays a schedule: steps of a plain program from its start in this store, one for each move, up to the first that
/// isn't made.
///
/// The number of declared threads plus the number of moves is below 2 to the 32 minus 1, so that threads that are
/// spawned have numbers. Nothing else is asked for: where the store has no value of its sort for some global, the trace
/// is that of the definitions, which are total. (Small-step interleaving.) What stands at each place is worked out once,
/// so it takes time for the program's text and for the moves, and not for their product.
///
/// # Errors
///
/// For want of memory; and where no `usize` says how many statements a body has, since no memory holds so many.
pub fn run(alloc: Global, plain: &Plain, store: &Store, moves: &List<Move>) -> Result<Trace, Memory>
    requires { length plain.now.program.threads + length moves.now + 1 < 2 ^ 32 }
    ensures { IfOk result (λ trace. trace ≡ trace_of plain.now store.now moves.now) }
{
    let places = places_of(alloc, plain)?;
    let mut config = start(alloc, plain, store)?;
    let (moved, stopped) = replay(alloc, &mut config, plain, &places, moves.as_slice())?;
    let failing = failing(&config, plain);
    let Config {
        store: end,
        threads: _,
    } = config;
    Ok(Trace {
        moved,
        stopped,
        failing,
        end,
    })
}
