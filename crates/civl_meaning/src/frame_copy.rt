// What a frame is to whoever looks at it.

use civl_bits::Value;
use civl_tree::{List, Stmt};

/// A copy of a thread's frame: the values of its names, and the statements that are still to run.
#[derive(Drop)]
pub struct Frame {
    pub locals: List<Value>,
    pub rest: List<Stmt>,
}
