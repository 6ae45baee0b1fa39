// What is lost on a path.

use civl_bits::Value;
use civl_traces::Changed;
use civl_tree::List;

/// By what values violate a condition on a path of a procedure (K9, K10).
#[derive(Drop)]
pub enum Loss {
    /// The path comes to a call of the action with this number with these inputs, and its gate is false there.
    FalseGate(usize, List<Value>),
    /// The path comes to an assert that is false there.
    FalseAssert,
    /// The path ends at the cut with this number, and what the cut says is false there.
    FalseNote(usize),
    /// The path passes a commit, the statement with this number, where `done` is true.
    CommitAgain(usize),
    /// The path comes to the exit, and `done` is false there.
    NoCommit,
    /// A block without a new commit changes these globals of the upper program, or these outputs, where `done` was true.
    Changes(List<Changed>, List<Changed>),
    /// The refined action, with these values for its choices, can't be made from the globals at the block's beginning.
    ActionWaits(List<Value>),
    /// The refined action gives other values to these globals of the upper program, or to these outputs, than the block does.
    ActionGives(List<Changed>, List<Changed>),
    /// The rank has the first value at the beginning, and the second, which isn't less, back at the loop.
    RankStays(Value, Value),
    /// The block ends, and the target of the condition is lost there.
    TargetLost,
}
