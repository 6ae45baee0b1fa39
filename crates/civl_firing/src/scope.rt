// Scopes.

use civl_bits::Value;
use civl_tree::{List, Name};

/// What the names of an expression stand for: for each name its value and its old value, at one place of the three
/// lists, and the values of `done` and `old(done)`.
#[derive(Drop)]
pub struct Scope {
    pub names: List<Name>,
    pub values: List<Value>,
    pub old: List<Value>,
    pub done: bool,
    pub old_done: bool,
}
