// Moves arranged block by block. Nothing here is claimed of the order: whether the moves still run is tried afterwards.
ghost use Rattle.std.specs.Prelude.{◌≡◌, ◌<◌, ◌≤◌, length, IfSome};
ghost use Rattle.std.specs.VecDeque.{deque_len};

use crate::place::{Place, is_early, is_inside};
use civl_meaning::Move;
use civl_meaning::copying::copied;
use civl_tree::Memory;
use std::alloc::Global;
use std::collections::VecDeque;

/// Moves arranged block by block.
#[derive(Drop)]
pub struct Arranged {
    /// The moves of whole blocks, block by block, in the order of their turns.
    pub blocks: Vec<Move>,
    /// The others, in the order in which they stood.
    pub others: Vec<Move>,
}

/// How far the moves of a thread are arranged.
#[derive(Clone, Copy)]
struct Reach {
    /// Its moves before this place are.
    next: usize,
    /// Where its block begins, if one has begun that has no turn yet.
    begun: Option<usize>,
}

/// The first of a thread's moves, from a place on, that leaves it between blocks.
fn block_end(rest: &VecDeque<Move>, places: &[Place], thread: u32, from: usize) -> Option<usize>
    requires there { length places.now ≤ deque_len rest.now }
    ensures { IfSome result (λ end. end < length places.now) }
{
    for at in from..places.len() {
        if rest[at].thread == thread && !is_inside(places[at]) {
            return Some(at);
        }
    }
    None
}

/// Puts copies of a thread's moves, from one place to another, behind others.
fn push_own(
    alloc: Global,
    blocks: &mut Vec<Move>,
    rest: &VecDeque<Move>,
    thread: u32,
    from: usize,
    end: usize,
) -> Result<(), Memory>
    requires there { end < deque_len rest.now }
{
    for at in from..end + 1 {
        if rest[at].thread == thread {
            let copy = copied(alloc, &rest[at])?;
            blocks.push(copy)?;
        }
    }
    Ok(())
}

/// Arranges the block of which the move at this place is the turn, if it is one's. Whether blocks behind it may be arranged.
fn arrange_at(
    alloc: Global,
    rest: &VecDeque<Move>,
    places: &[Place],
    reaches: &mut [Reach],
    blocks: &mut Vec<Move>,
    at: usize,
) -> Result<bool, Memory>
    requires few { length places.now ≤ deque_len rest.now }
    requires there { at < length places.now }
    ensures { length reaches.new ≡ length reaches.old }
{
    let thread = rest[at].thread;
    let number = thread as usize;
    if number >= reaches.len() {
        return Ok(false);
    }
    let Reach { next, begun } = reaches[number];
    if at < next {
        return Ok(true);
    }
    let from = begun.unwrap_or(at);
    if is_early(places[at]) {
        reaches[number] = Reach {
            next,
            begun: Some(from),
        };
        return Ok(true);
    }
    let Some(end) = block_end(rest, places, thread, at) else {
        return Ok(false);
    };
    push_own(alloc, blocks, rest, thread, from, end)?;
    reaches[number] = Reach {
        next: end + 1,
        begun: None,
    };
    Ok(true)
}

/// Copies of the first moves that aren't arranged.
fn left_over(
    alloc: Global,
    rest: &VecDeque<Move>,
    count: usize,
    reaches: &[Reach],
) -> Result<Vec<Move>, Memory>
    requires { count ≤ deque_len rest.now }
{
    let mut others = Vec::new(alloc);
    for at in 0..count {
        let number = rest[at].thread as usize;
        if number >= reaches.len() || at >= reaches[number].next {
            let copy = copied(alloc, &rest[at])?;
            others.push(copy)?;
        }
    }
    Ok(others)
}

/// Arranges the first moves, of which it is told where each leaves its thread, block by block: those of whole blocks, up to the
/// first block that doesn't end among them, in the order of their turns, and the others behind. The threads have numbers below
/// this one. The time grows with the moves, and with what others do from the beginning of each block to its end.
pub fn by_turns(
    alloc: Global,
    rest: &VecDeque<Move>,
    places: &[Place],
    threads: usize,
) -> Result<Arranged, Memory>
    requires { length places.now ≤ deque_len rest.now }
{
    let none = Reach {
        next: 0,
        begun: None,
    };
    let mut reaches = vec![in alloc; none; threads]?;
    let mut blocks = Vec::new(alloc);
    for at in 0..places.len() {
        if !arrange_at(alloc, rest, places, reaches.as_mut_slice(), &mut blocks, at)? {
            break;
        }
    }
    let others = left_over(alloc, rest, places.len(), &reaches)?;
    Ok(Arranged { blocks, others })
}
