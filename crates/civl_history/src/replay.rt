// Moves made one by one, and told.
ghost use Rattle.std.specs.Prelude.{◌≡◌, ◌+◌, ◌<◌, ◌≤◌, ◌^◌, length, IfOk};
ghost use Rattle.civl_meaning.specs.Run.{run_of};
ghost use Rattle.civl_meaning.specs.Table.{ArePlaces};
ghost use Rattle.civl_history.specs.History.{history};
ghost use Rattle.civl_history.specs.inner.Spots.{AreSpots};

use crate::moves::MadeMove;
use crate::spots::Spots;
use crate::telling::{Outcome, make_move};
use civl_meaning::{Config, Move, Places, Plain, Stepped};
use civl_tree::Memory;
use std::alloc::Global;

/// Makes these moves, up to the first that isn't made: what is told of those that were made, and the answer of the next.
pub(crate) fn replay(
    alloc: Global,
    config: &mut Config,
    plain: &Plain,
    places: &Places<'_>,
    spots: &Spots<'_>,
    moves: &[Move],
) -> Result<(Vec<MadeMove>, Option<Stepped>), Memory>
    requires places { ArePlaces plain.now places.now }
    requires spots { AreSpots plain.now spots.now }
    requires few { length config.old.threads + length moves.now < 2 ^ 32 }
    ensures run { IfOk result (λ r. (length r.0.items, r.1, config.new) ≡ run_of plain.now moves.now 0 config.old) }
    ensures told { IfOk result (λ r. r.0.items ≡ history plain.now config.old moves.now) }
    ensures few { length config.new.threads ≤ length config.old.threads + length moves.now }
{
    let mut told = Vec::new(alloc);
    for chosen in moves {
        match make_move(alloc, config, plain, places, spots, chosen)? {
            Outcome::Made(made) => told.push(made)?,
            Outcome::Refused(answer) => return Ok((told, Some(answer))),
        }
    }
    Ok((told, None))
}
