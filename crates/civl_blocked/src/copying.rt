// Copies of moves.
ghost use Rattle.std.specs.Prelude.{◌≡◌, IfOk};

use civl_meaning::Move;
use civl_meaning::copying::copied;
use civl_tree::Memory;
use std::alloc::Global;
use std::collections::VecDeque;

/// Equal moves, to be taken from the front.
pub fn queue(alloc: Global, moves: &[Move]) -> Result<VecDeque<Move>, Memory>
    ensures { IfOk result (λ ms. ms.items ≡ moves.now) }
{
    let mut copies = VecDeque::new(alloc);
    for chosen in moves {
        let copy = copied(alloc, chosen)?;
        copies.push_back(copy)?;
    }
    Ok(copies)
}
