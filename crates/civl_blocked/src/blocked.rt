// What comes of the moves of a failing interleaving.

use civl_meaning::Move;
use civl_tree::List;

/// What a failing interleaving is turned into.
#[derive(Drop)]
pub enum Blocked {
    /// The moves of a block run that ends failing or challenged.
    Run(List<Move>),
    /// A thread, and moves that run to a failing configuration in which it stands late in a block that its next
    /// steps don't end.
    Spent(u32, List<Move>),
}
