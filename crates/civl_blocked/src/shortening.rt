// Shorter lists of moves that fail.
ghost use Rattle.std.specs.Prelude.{◌<◌, length, IfOk, IfSome, IfNone};
ghost use Rattle.civl_reduction.specs.gathering.Gathered.{own, FailsAlong, FailsSooner};
ghost use Rattle.civl_reduction.specs.gathered.Laws.{by_thread};
ghost use Rattle.civl_blocked.specs.inner.Segments.{IsGround, over, IsShortened};
ghost use Rattle.civl_blocked.specs.inner.Shortened.{IsFront, IsFrontBehind, FailsBehindOther};

use crate::ground::Ground;
use crate::place::is_inside;
use crate::stepping::{advanced, failing_in, passed};
use civl_meaning::copying::copied;
use civl_meaning::{Config, Move, copy_config};
use civl_tree::Memory;
use std::alloc::Global;

/// The first moves of this thread that lead to a failing configuration, where each but the last of them leaves it inside its
/// block; or none, where it fails at once.
fn failing_front(
    alloc: Global,
    ground: &Ground<'_, '_, '_>,
    from: &Config,
    thread: u32,
    moves: &[Move],
) -> Result<Option<Vec<Move>>, Memory>
    requires { IsGround ground.now }
    ensures some { IfOk result (λ o. IfSome o (λ front. IsFront (over ground.now) thread moves.now from.now front.items)) }
    ensures none { IfOk result (λ o. IfNone o (FailsAlong (over ground.now) thread (own by_thread thread moves.now) from.now → ⊥)) }
{
    civl_reduction::gathered::laws::places_stay();
    let mut config = copy_config(alloc, from)?;
    let mut front = Vec::new(alloc);
    if failing_in(ground, &config)?.is_some() {
        return Ok(Some(front));
    }
    for chosen in moves {
        if chosen.thread != thread {
            continue;
        }
        let Some(place) = advanced(alloc, ground, &mut config, chosen)? else {
            return Ok(None);
        };
        let copy = copied(alloc, chosen)?;
        front.push(copy)?;
        if failing_in(ground, &config)?.is_some() {
            return Ok(Some(front));
        }
        if !is_inside(place) {
            return Ok(None);
        }
    }
    Ok(None)
}

/// The same of the moves behind this place, if the move there is of another thread.
fn front_behind(
    alloc: Global,
    ground: &Ground<'_, '_, '_>,
    from: &Config,
    thread: u32,
    moves: &[Move],
    at: usize,
) -> Result<Option<Vec<Move>>, Memory>
    requires ground { IsGround ground.now }
    requires there { at < length moves.now }
    ensures some { IfOk result (λ o. IfSome o (λ front. IsFrontBehind (over ground.now) thread moves.now at from.now front.items)) }
    ensures none { IfOk result (λ o. IfNone o (FailsBehindOther (over ground.now) thread moves.now at from.now → ⊥)) }
{
    if moves[at].thread == thread {
        return Ok(None);
    }
    let behind = &moves[at + 1..];
    failing_front(alloc, ground, from, thread, behind)
}

/// The moves up to one of another thread without which, and without all others behind it, something fails.
pub fn shortened(
    alloc: Global,
    ground: &Ground<'_, '_, '_>,
    from: &Config,
    thread: u32,
    moves: &[Move],
) -> Result<Vec<Move>, Memory>
    requires ground { IsGround ground.now }
    requires sooner { FailsSooner (over ground.now) thread moves.now from.now }
    ensures { IfOk result (λ shorter. IsShortened (over ground.now) thread moves.now from.now shorter.items) }
{
    let mut config = copy_config(alloc, from)?;
    let mut kept = Vec::new(alloc);
    for at in 0..moves.len() {
        let chosen = &moves[at];
        match front_behind(alloc, ground, &config, thread, moves, at)? {
            Some(mut front) => {
                kept.append(&mut front)?;
                return Ok(kept);
            }
            None => {}
        }
        passed(alloc, ground, &mut config, chosen)?;
        let copy = copied(alloc, chosen)?;
        kept.push(copy)?;
    }
    unreachable!()
}
