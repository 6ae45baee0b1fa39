// Moves that are brought to the front.
ghost use Rattle.std.specs.Prelude.{◌+◌, ◌<◌, ◌^◌, ℕ, length, IfOk, All};
ghost use Rattle.std.specs.List.Sorted.{IsStrictlyIncreasing};
ghost use Rattle.civl_reduction.specs.Front.{down, AreExchanged, IsFronted};

use crate::swapped::Swapped;
use crate::swapping::swap;
use civl_meaning::copying::copies;
use civl_meaning::{Config, Move, Plain};
use civl_tree::{List, Memory};
use std::alloc::Global;

/// Exchanges the move that stands so many places behind the target with its left neighbours, until it stands there.
fn bring(
    alloc: Global,
    plain: &Plain,
    from: &Config,
    moves: List<Move>,
    target: usize,
    count: usize,
) -> Result<Swapped, Memory>
    requires exist { target + count < length moves }
    requires few { length from.now.threads + length moves < 2 ^ 32 }
    ensures { IfOk result (λ answer. AreExchanged plain.now from.now (down count target) moves answer) }
{
    let mut current = moves;
    for done in 0..count {
        let place = target + (count - 1 - done);
        current = match swap(alloc, plain, from, &current, place)? {
            Swapped::Same(turned) => turned,
            Swapped::Fails(shorter) => return Ok(Swapped::Fails(shorter)),
            Swapped::Differs(at) => return Ok(Swapped::Differs(at)),
        };
    }
    Ok(Swapped::Same(current))
}

/// Brings the moves at these places to the front, by exchanges of neighbours: in their order, each with its left neighbour
/// until it stands behind the chosen ones before it. The answer is that of the first exchange that isn't `Same`, and
/// `Same` with the list where all are.
///
/// The places are rising, and there are moves at them. There are fewer than 2 to the 32 threads and moves together.
///
/// # Errors
///
/// For want of memory.
pub fn to_front(
    alloc: Global,
    plain: &Plain,
    from: &Config,
    moves: &List<Move>,
    chosen: &List<usize>,
) -> Result<Swapped, Memory>
    requires rising { IsStrictlyIncreasing chosen.now }
    requires exist { All (λ (place : ℕ). place < length moves.now) chosen.now }
    requires few { length from.now.threads + length moves.now < 2 ^ 32 }
    ensures { IfOk result (λ answer. IsFronted plain.now from.now moves.now chosen.now answer) }
{
    let mut current = List::from_vec(copies(alloc, moves.as_slice())?);
    for target in 0..chosen.len() {
        let place = *chosen.get(target);
        current = match bring(alloc, plain, from, current, target, place - target)? {
            Swapped::Same(turned) => turned,
            Swapped::Fails(shorter) => return Ok(Swapped::Fails(shorter)),
            Swapped::Differs(at) => return Ok(Swapped::Differs(at)),
        };
    }
    Ok(Swapped::Same(current))
}
