// What comes of lifting.

use civl_meaning::Move;
use civl_tree::List;

/// What a failing interleaving of the lowest program becomes.
#[derive(Drop)]
pub enum Lifted {
    /// The moves of a failing interleaving of the topmost program.
    Fails(List<Move>),
    /// A step between layers, numbered from 1; a thread; and moves that run in the program below the step to a failing
    /// configuration, in which the thread stands late in a block that its next steps don't end.
    Spent(u32, u32, List<Move>),
}
