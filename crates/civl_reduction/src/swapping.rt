// The exchange of two moves.
ghost use Rattle.std.specs.Prelude.{◌≡◌, ◌+◌, ◌<◌, ◌^◌, length, take, IfOk, IfSome, IfNone};
ghost use Rattle.civl_reduction.specs.Swap.{RunAlike, RunsFailing, exchanged_at, before, IsSwapped};

use crate::running::{run_alike, runs_failing};
use crate::swapped::Swapped;
use civl_meaning::copying::copies;
use civl_meaning::{Config, Move, Plain};
use civl_tree::{List, Memory};
use std::alloc::Global;

/// The first of these moves.
fn first_moves(alloc: Global, moves: &[Move], count: usize) -> Result<List<Move>, Memory>
    ensures { IfOk result (λ ms. ms ≡ take count moves.now) }
{
    let mut copies = copies(alloc, moves)?;
    copies.truncate(count);
    Ok(List::from_vec(copies))
}

/// The moves with those at this place and behind it exchanged.
fn exchanged(alloc: Global, moves: &[Move], place: usize) -> Result<List<Move>, Memory>
    requires { place + 1 < length moves.now }
    ensures { IfOk result (λ ms. ms ≡ exchanged_at place moves.now) }
{
    let mut copies = copies(alloc, moves)?;
    copies.swap(place, place + 1);
    Ok(List::from_vec(copies))
}

/// The first of these moves, if they run to a failing configuration.
fn failing_start(
    alloc: Global,
    plain: &Plain,
    from: &Config,
    moves: &[Move],
    count: usize,
) -> Result<Option<List<Move>>, Memory>
    requires { length from.now.threads + length moves.now < 2 ^ 32 }
    ensures some { IfOk result (λ shorter. IfSome shorter (λ ms. (ms ≡ take count moves.now) × RunsFailing plain.now from.now ms)) }
    ensures none { IfOk result (λ shorter. IfNone shorter (RunsFailing plain.now from.now (take count moves.now) → ⊥)) }
{
    let start = first_moves(alloc, moves, count)?;
    if runs_failing(alloc, plain, from, start.as_slice())? {
        Ok(Some(start))
    } else {
        Ok(None)
    }
}

/// Where the exchanged list runs to another configuration: one of the two shorter lists, or neither.
fn shortened(
    alloc: Global,
    plain: &Plain,
    from: &Config,
    moves: &[Move],
    turned: &[Move],
    place: usize,
) -> Result<Swapped, Memory>
    requires exist { place + 1 < length moves.now }
    requires turned { turned.now ≡ exchanged_at place moves.now }
    requires differs { RunAlike plain.now from.now moves.now turned.now → ⊥ }
    requires few { length from.now.threads + length moves.now < 2 ^ 32 }
    ensures { IfOk result (λ swapped. IsSwapped plain.now from.now moves.now place swapped) }
{
    if let Some(shorter) = failing_start(alloc, plain, from, moves, place)? {
        return Ok(Swapped::Fails(shorter));
    }
    if let Some(shorter) = failing_start(alloc, plain, from, turned, place + 1)? {
        return Ok(Swapped::Fails(shorter));
    }
    Ok(Swapped::Differs(place))
}

/// Exchanges the moves at this place and behind it. The answer is `Same`, with the exchanged list, where that runs from
/// this configuration to the one to which the moves run. Where not, it is `Fails` where the moves before the place, or these
/// with the one that stood behind it, run to a failing configuration; and else `Differs`.
///
/// Both moves exist. There are fewer than 2 to the 32 threads and moves together.
///
/// # Errors
///
/// For want of memory.
pub fn swap(
    alloc: Global,
    plain: &Plain,
    from: &Config,
    moves: &List<Move>,
    place: usize,
) -> Result<Swapped, Memory>
    requires exist { place + 1 < length moves.now }
    requires few { length from.now.threads + length moves.now < 2 ^ 32 }
    ensures { IfOk result (λ swapped. IsSwapped plain.now from.now moves.now place swapped) }
{
    let turned = exchanged(alloc, moves.as_slice(), place)?;
    if run_alike(alloc, plain, from, moves.as_slice(), turned.as_slice())? {
        return Ok(Swapped::Same(turned));
    }
    shortened(
        alloc,
        plain,
        from,
        moves.as_slice(),
        turned.as_slice(),
        place,
    )
}
