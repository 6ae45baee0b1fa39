// The moves up to the turn of a block, and up to its end.
ghost use Rattle.std.specs.Prelude.{◌≡◌, IfOk, IsTrue, IsFalse, true, false};
ghost use Rattle.civl_reduction.specs.interleavings.Reduction.{is_inside};
ghost use Rattle.civl_blocked.specs.inner.Places.{place_of};
ghost use Rattle.civl_blocked.specs.inner.Segments.{IsGround, over, FailsTo};
ghost use Rattle.civl_blocked.specs.inner.Walked.{IsToTurn, IsToEnd};

use crate::ground::Ground;
use crate::place::{Place, is_early, is_inside};
use crate::segment::Segment;
use crate::stepping::passed;
use civl_meaning::{Config, Move, copy_config};
use civl_tree::Memory;
use std::alloc::Global;
use std::collections::VecDeque;

/// What moves are up to where they are looked for.
#[derive(Drop)]
pub enum Walked {
    /// Up to there.
    To(Segment),
    /// All of them, and where they lead.
    Past(Vec<Move>, Config),
}

/// Whether a step of a thread that leads to this place leaves the other one inside its block, if that is the same thread.
fn stays(mover: u32, thread: u32, place: Place) -> bool
    ensures yes { IsTrue result → mover ≡ thread → is_inside (place_of place) ≡ true }
    ensures no { IsFalse result → (mover ≡ thread) × (is_inside (place_of place) ≡ false) }
{
    mover != thread || is_inside(place)
}

/// Takes the first moves off, up to the first one that doesn't leave its thread early in its block.
pub fn to_turn(
    alloc: Global,
    ground: &Ground<'_, '_, '_>,
    from: &Config,
    rest: &mut VecDeque<Move>,
) -> Result<Walked, Memory>
    requires ground { IsGround ground.now }
    requires fails { FailsTo (over ground.now) rest.old.items from.now }
    ensures { IfOk result (IsToTurn ground.now from.now rest.old.items rest.new.items) }
{
    let mut config = copy_config(alloc, from)?;
    let mut moves = Vec::new(alloc);
    while let Some(chosen) = rest.pop_front() {
        let place = passed(alloc, ground, &mut config, &chosen)?;
        if !is_early(place) {
            return Ok(Walked::To(Segment {
                moves,
                last: chosen,
                end: config,
            }));
        }
        moves.push(chosen)?;
    }
    Ok(Walked::Past(moves, config))
}

/// Takes the first moves off, up to the first one behind which this thread stands between blocks.
pub fn to_end(
    alloc: Global,
    ground: &Ground<'_, '_, '_>,
    from: &Config,
    thread: u32,
    rest: &mut VecDeque<Move>,
) -> Result<Walked, Memory>
    requires ground { IsGround ground.now }
    requires fails { FailsTo (over ground.now) rest.old.items from.now }
    ensures { IfOk result (IsToEnd ground.now from.now thread rest.old.items rest.new.items) }
{
    civl_reduction::gathered::laws::places_stay();
    let mut config = copy_config(alloc, from)?;
    let mut moves = Vec::new(alloc);
    while let Some(chosen) = rest.pop_front() {
        let place = passed(alloc, ground, &mut config, &chosen)?;
        if !stays(chosen.thread, thread, place) {
            return Ok(Walked::To(Segment {
                moves,
                last: chosen,
                end: config,
            }));
        }
        moves.push(chosen)?;
    }
    Ok(Walked::Past(moves, config))
}
