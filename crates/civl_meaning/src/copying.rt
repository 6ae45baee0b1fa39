//! Copies of moves.
ghost use Rattle.std.specs.Prelude.{◌≡◌, IfOk};

use crate::config::Move;
use civl_tree::{List, Memory};
use std::alloc::Global;

/// An equal move.
///
/// # Errors
///
/// For want of memory.
pub fn copied(alloc: Global, chosen: &Move) -> Result<Move, Memory>
    ensures { IfOk result (λ m. m ≡ chosen.now) }
{
    let choices = Vec::from_slice(alloc, chosen.choices.as_slice())?;
    Ok(Move {
        thread: chosen.thread,
        choices: List::from_vec(choices),
    })
}

/// Equal moves.
///
/// # Errors
///
/// For want of memory.
pub fn copies(alloc: Global, moves: &[Move]) -> Result<Vec<Move>, Memory>
    ensures { IfOk result (λ ms. ms.items ≡ moves.now) }
{
    let mut copies = Vec::new(alloc);
    for chosen in moves {
        let copy = copied(alloc, chosen)?;
        copies.push(copy)?;
    }
    Ok(copies)
}
