// The moves of a thread, gathered at the front of a segment.
ghost use Rattle.std.specs.Prelude.{◌↔◌, true, false, IfOk, IsTrue};
ghost use Rattle.civl_meaning.specs.declared.config.Config.{Config as There};
ghost use Rattle.civl_reduction.specs.interleavings.Runs.{SystemRuns, Opens};
ghost use Rattle.civl_reduction.specs.gathering.Gathered.{own, others};
ghost use Rattle.civl_reduction.specs.gathered.Laws.{by_thread};
ghost use Rattle.civl_blocked.specs.inner.Segments.{IsGround, over, Gathered};

use crate::ground::Ground;
use crate::place::is_inside;
use crate::segment::Segment;
use crate::stepping::{advanced, moved};
use civl_meaning::{Config, Move, copy_config, same};
use civl_tree::Memory;
use std::alloc::Global;

/// Runs the moves of this thread, and tells whether each is made and leaves it inside its block.
fn runs_own(
    alloc: Global,
    ground: &Ground<'_, '_, '_>,
    config: &mut Config,
    thread: u32,
    moves: &[Move],
) -> Result<bool, Memory>
    requires { IsGround ground.now }
    ensures made { IfOk result (λ b. IsTrue b → Opens (over ground.now) thread (own by_thread thread moves.now) config.old config.new) }
    ensures not { IfOk result (λ b. (IsTrue b → ⊥) → (x : There) → Opens (over ground.now) thread (own by_thread thread moves.now) config.old x → ⊥) }
{
    civl_reduction::gathered::laws::places_stay();
    for chosen in moves {
        if chosen.thread != thread {
            continue;
        }
        let Some(place) = advanced(alloc, ground, config, chosen)? else {
            return Ok(false);
        };
        if !is_inside(place) {
            return Ok(false);
        }
    }
    Ok(true)
}

/// Runs the moves of the other threads, and tells whether each is made.
fn runs_others(
    alloc: Global,
    ground: &Ground<'_, '_, '_>,
    config: &mut Config,
    thread: u32,
    moves: &[Move],
) -> Result<bool, Memory>
    requires { IsGround ground.now }
    ensures made { IfOk result (λ b. IsTrue b → SystemRuns (over ground.now).steps (others by_thread thread moves.now) config.old config.new) }
    ensures not { IfOk result (λ b. (IsTrue b → ⊥) → (x : There) → SystemRuns (over ground.now).steps (others by_thread thread moves.now) config.old x → ⊥) }
{
    for chosen in moves {
        if chosen.thread == thread {
            continue;
        }
        if !moved(alloc, ground, config, chosen)? {
            return Ok(false);
        }
    }
    Ok(true)
}

/// Whether a segment leads to the same end with the moves of this thread first, each of which but the last leaves it inside
/// its block.
pub fn gathers(
    alloc: Global,
    ground: &Ground<'_, '_, '_>,
    from: &Config,
    thread: u32,
    segment: &Segment,
) -> Result<bool, Memory>
    requires { IsGround ground.now }
    ensures { IfOk result (λ b. IsTrue b ↔ Gathered ground.now from.now thread segment.now) }
{
    let mut config = copy_config(alloc, from)?;
    let moves = segment.moves.as_slice();
    if !runs_own(alloc, ground, &mut config, thread, moves)? {
        return Ok(false);
    }
    if !moved(alloc, ground, &mut config, &segment.last)? {
        return Ok(false);
    }
    if !runs_others(alloc, ground, &mut config, thread, moves)? {
        return Ok(false);
    }
    Ok(same(&config, &segment.end))
}
