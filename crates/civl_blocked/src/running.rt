// Block runs from failing interleavings.
ghost use Rattle.std.specs.Prelude.{◌+◌, ◌<◌, ◌^◌, All, IfOk};
ghost use Rattle.civl_meaning.specs.Failing.{IsMove};
ghost use Rattle.civl_reduction.specs.checked.Checked.{IsChecked};
ghost use Rattle.civl_shadows.specs.Shadows.{IsLayerOf};
ghost use Rattle.civl_blocked.specs.Blocked.{Fails, IsBlocked};

use crate::blocked::Blocked;
use crate::copying::queue;
use crate::ground::Ground;
use crate::pacing::Pace;
use crate::turning::{Turning, turn};
use civl_firing::Store;
use civl_layers::{Layered, at, program};
use civl_meaning::{Move, Plain, places_of};
use civl_shadows::{is_challenged, shadowed_start};
use civl_tree::{List, Memory};
use std::alloc::Global;

/// Turns the moves of a failing run of this program into a block run.
fn turned(
    alloc: Global,
    plain: &Plain,
    layer: u32,
    store: &Store,
    moves: &List<Move>,
) -> Result<Blocked, Memory>
    requires few { layer + 1 < 2 ^ 32 }
    requires layer { IsLayerOf plain.now layer }
    requires checked { IsChecked plain.now.program layer store.now }
    requires moves { All IsMove moves.now }
    requires fails { Fails plain.now.program layer store.now moves.now }
    ensures { IfOk result (IsBlocked plain.now.program layer store.now 1000000 moves.now) }
{
    let places = places_of(alloc, plain)?;
    let ground = Ground {
        plain,
        places: &places,
        layer,
        store,
    };
    let beside = shadowed_start(alloc, plain, store)?;
    if is_challenged(alloc, plain, layer, &beside)? {
        return Ok(Blocked::Run(List::new(alloc)));
    }
    let rest = queue(alloc, moves.as_slice())?;
    let turning = Turning {
        done: Vec::new(alloc),
        beside,
        rest,
        open: None,
        pace: Pace::full(),
    };
    let blocked = turn(alloc, &ground, turning)?;
    Ok(blocked)
}

/// Turns the moves of a failing interleaving of the program of a layer, from an initial store of a checked program, into a
/// block run that ends failing or challenged: each block's moves stand together, and there are no more blocks than there were
/// moves. A block that the moves leave unfinished is completed by steps of its thread, with offered choices; where 1,000,000 of
/// them don't end it, the answer is `Spent`.
///
/// # Errors
///
/// For want of memory; and where there are 2 to the 32 threads or more, since no move names them all.
pub fn block_run(
    alloc: Global,
    src: &Layered,
    layer: u32,
    store: &Store,
    moves: &List<Move>,
) -> Result<Blocked, Memory>
    requires checked { IsChecked src.now layer store.now }
    requires moves { All IsMove moves.now }
    requires fails { Fails src.now layer store.now moves.now }
    ensures { IfOk result (IsBlocked src.now layer store.now 1000000 moves.now) }
{
    let _layers = program(src).layers;
    let plain = at(alloc, src, layer)?;
    turned(alloc, &plain, layer, store, moves)
}
