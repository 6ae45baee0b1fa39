// Nodes of graphs of terms.

use civl_bits::Value;
use civl_tree::{One, Sort, Two};

/// The number of a node in its graph, from 0.
pub type Id = usize;

/// A node: a constant, a variable with its number and its sort, or an operation on nodes with smaller numbers.
///
/// `Fill(index, cell)`, `Slice(word, high, low)` and `Widen(word, width)` have their numbers where expressions have them.
#[derive(Clone, Copy, Debug, PartialEq, Eq, Hash)]
pub enum Node {
    Constant(Value),
    Variable(u32, Sort),
    One(One, Id),
    Two(Two, Id, Id),
    Pick(Id, Id, Id),
    Get(Id, Id),
    Set(Id, Id, Id),
    Fill(u32, Id),
    Slice(Id, u32, u32),
    Widen(Id, u32),
    Join(Id, Id),
}
