// Blocks that the moves leave unfinished, and their completion.
ghost use Rattle.std.specs.Prelude.{IfOk};
ghost use Rattle.civl_blocked.specs.inner.Segments.{IsGround};
ghost use Rattle.civl_blocked.specs.inner.Completed.{StandsLate, IsCompleted};

use crate::ground::Ground;
use crate::offering::offered;
use crate::place::is_inside;
use crate::segment::Segment;
use crate::stepping::advanced;
use civl_meaning::{Config, Move};
use civl_tree::Memory;
use std::alloc::Global;

/// What comes of completing a block.
#[derive(Drop)]
pub enum Completed {
    /// The moves, and behind them those that end the block.
    Whole(Segment),
    /// The moves, and behind them some after which the thread fails.
    Stopped(Vec<Move>),
    /// The moves; the block doesn't end.
    Spent(Vec<Move>),
}

/// Adds steps of this thread, with offered choices, to these moves, which lead here, until its block ends. There are so many
/// at most.
pub fn complete(
    alloc: Global,
    ground: &Ground<'_, '_, '_>,
    thread: u32,
    moves: Vec<Move>,
    end: Config,
    steps: u32,
) -> Result<Completed, Memory>
    requires ground { IsGround ground.now }
    requires late { StandsLate ground.now end thread }
    ensures { IfOk result (IsCompleted ground.now thread steps moves.items end) }
{
    civl_reduction::gathered::laws::late_threads_step();
    civl_reduction::gathered::laws::places_stay();
    let count = moves.len();
    let mut moves = moves;
    let mut config = end;
    let mut added = 0;
    while added < steps {
        let chosen = offered(alloc, ground.plain, &config, thread)?;
        let Some(place) = advanced(alloc, ground, &mut config, &chosen)? else {
            return Ok(Completed::Stopped(moves));
        };
        if !is_inside(place) {
            return Ok(Completed::Whole(Segment {
                moves,
                last: chosen,
                end: config,
            }));
        }
        moves.push(chosen)?;
        added += 1;
    }
    moves.truncate(count);
    Ok(Completed::Spent(moves))
}
