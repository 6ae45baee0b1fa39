// From the lowest program to the topmost one.
ghost use Rattle.std.specs.Prelude.{IfOk};
ghost use Rattle.civl_meaning.specs.Initial.{IsInitial};
ghost use Rattle.civl_meaning.specs.Layers.{lowest};
ghost use Rattle.civl_reduction.specs.simulation.Followed.{IsAccepted};
ghost use Rattle.civl_lifting.specs.Lifted.{FailsBy, IsLifted};

use crate::lifted::Lifted;
use civl_blocked::{Blocked, block_run};
use civl_firing::Store;
use civl_followed::follow;
use civl_layers::{Layered, program};
use civl_meaning::Move;
use civl_meaning::copying::copies;
use civl_tree::{List, Memory};
use std::alloc::Global;

/// Lifts the moves of a failing interleaving of the lowest program, from an initial store of a program whose conditions all
/// hold, to those of a failing interleaving of the topmost program from the same store, layer by layer; there are no more of
/// them than were given. A block that the moves leave unfinished is completed by steps of its thread alone, with offered
/// choices; where 1,000,000 of them don't end it, the answer is `Spent`.
///
/// # Errors
///
/// For want of memory; and where there are 2 to the 32 threads or more, since no move names them all.
pub fn lift(
    alloc: Global,
    src: &Layered,
    store: &Store,
    moves: &List<Move>,
) -> Result<Lifted, Memory>
    requires accepted { IsAccepted src.now }
    requires initial { IsInitial src.now store.now }
    requires fails { FailsBy (lowest src.now) store.now moves.now }
    ensures { IfOk result (IsLifted src.now store.now 1000000 moves.now) }
{
    let mut lifted = List::from_vec(copies(alloc, moves.as_slice())?);
    for layer in 0..program(src).layers {
        match block_run(alloc, src, layer, store, &lifted)? {
            Blocked::Run(blocks) => {
                lifted = follow(alloc, src, layer, store, &blocks)?;
            }
            Blocked::Spent(thread, unfinished) => {
                return Ok(Lifted::Spent(layer + 1, thread, unfinished));
            }
        }
    }
    Ok(Lifted::Fails(lifted))
}
