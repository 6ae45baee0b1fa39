// Steps, and where they leave their threads.
ghost use Rattle.std.specs.Prelude.{◌≡◌, true, Some, None, IfOk, IfSome, IfNone, IsTrue};
ghost use Rattle.civl_meaning.specs.declared.config.Config.{Config as Given};
ghost use Rattle.civl_reduction.specs.interleavings.Systems.{Failing};
ghost use Rattle.civl_blocked.specs.inner.Places.{place_of};
ghost use Rattle.civl_blocked.specs.inner.Segments.{IsGround, over, place_on};

use crate::ground::Ground;
use crate::place::{Place, place_at};
use civl_meaning::{Config, Move, Stepped, failing, step};
use civl_tree::Memory;
use std::alloc::Global;

/// A step, and whether it was made.
pub fn moved(
    alloc: Global,
    ground: &Ground<'_, '_, '_>,
    config: &mut Config,
    chosen: &Move,
) -> Result<bool, Memory>
    requires { IsGround ground.now }
    ensures made { IfOk result (λ b. IsTrue b → (over ground.now).step config.old chosen.now ≡ Some config.new) }
    ensures not { IfOk result (λ b. (IsTrue b → ⊥) → (over ground.now).step config.old chosen.now ≡ None) }
{
    let answer = step(alloc, config, ground.plain, ground.places, chosen)?;
    Ok(answer == Stepped::Moved)
}

/// A step, and where it leaves its thread, if it was made.
pub fn advanced(
    alloc: Global,
    ground: &Ground<'_, '_, '_>,
    config: &mut Config,
    chosen: &Move,
) -> Result<Option<Place>, Memory>
    requires { IsGround ground.now }
    ensures made { IfOk result (λ o. IfSome o (λ p. ((over ground.now).step config.old chosen.now ≡ Some config.new) × (place_of p ≡ place_on ground.now config.new chosen.now.thread))) }
    ensures not { IfOk result (λ o. IfNone o ((over ground.now).step config.old chosen.now ≡ None)) }
{
    if !moved(alloc, ground, config, chosen)? {
        return Ok(None);
    }
    let place = place_at(
        alloc,
        &ground.plain.program,
        ground.layer,
        config,
        chosen.thread,
    )?;
    Ok(Some(place))
}

/// A step that can be made, and where it leaves its thread.
pub fn passed(
    alloc: Global,
    ground: &Ground<'_, '_, '_>,
    config: &mut Config,
    chosen: &Move,
) -> Result<Place, Memory>
    requires ground { IsGround ground.now }
    requires runs { (d : Given) × ((over ground.now).step config.old chosen.now ≡ Some d) }
    ensures made { IfOk result (λ p. (over ground.now).step config.old chosen.now ≡ Some config.new) }
    ensures place { IfOk result (λ p. place_of p ≡ place_on ground.now config.new chosen.now.thread) }
{
    match advanced(alloc, ground, config, chosen)? {
        Some(place) => Ok(place),
        None => unreachable!(),
    }
}

/// The first thread that fails, if one does.
///
/// # Errors
///
/// For want of memory; and where there are 2 to the 32 threads or more, since no move names them all.
pub fn failing_in(ground: &Ground<'_, '_, '_>, config: &Config) -> Result<Option<u32>, Memory>
    requires { IsGround ground.now }
    ensures some { IfOk result (λ o. IfSome o (λ t. (over ground.now).fails config.now t ≡ true)) }
    ensures none { IfOk result (λ o. IfNone o (Failing (over ground.now).steps config.now → ⊥)) }
{
    if config.threads.len() > u32::MAX as usize {
        return Err(Memory);
    }
    Ok(failing(config, ground.plain))
}
