// How far a block run has been followed.

use civl_bits::Value;
use civl_firing::Store;
use civl_meaning::{Config, Move};
use civl_shadows::Shadowed;
use civl_tree::List;

/// Where the block of a thread began.
#[derive(Drop)]
pub struct Opening {
    pub thread: usize,
    /// The store with the shadow's values.
    pub store: Store,
    /// Whether a commit had been passed.
    pub done: bool,
    /// The values behind `with` at the ends of the blocks without a step that begin there.
    pub offered: Vec<List<Value>>,
}

/// How far a block run has been followed.
#[derive(Drop)]
pub struct Walk {
    /// The configuration of the layer's program, and the shadow beside it.
    pub lower: Shadowed,
    /// The configuration of the program of the next layer.
    pub upper: Config,
    /// The moves that have led there.
    pub followed: Vec<Move>,
}
