// What comes of an exchange.

use civl_meaning::Move;
use civl_tree::List;

/// What comes of the exchange of two moves.
#[derive(Drop)]
pub enum Swapped {
    /// The exchanged list, which runs to the same configuration.
    Same(List<Move>),
    /// A shorter list, which runs to a failing configuration.
    Fails(List<Move>),
    /// Neither: the place of the exchange.
    Differs(usize),
}
