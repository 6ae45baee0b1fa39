// Stretches of moves.

use civl_meaning::{Config, Move};

/// Some moves, and where they lead. The last one is of the thread whose moves among them are to be gathered.
#[derive(Drop)]
pub struct Segment {
    pub moves: Vec<Move>,
    pub last: Move,
    pub end: Config,
}
