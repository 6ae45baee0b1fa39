// Moves that were made.
use crate::changes::Changed;
use crate::stand::Stand;
use civl_tree::List;

/// What kind of step a thread took.
#[derive(Clone, Copy, Debug, PartialEq, Eq)]
pub enum StepKind {
    /// It did a statement of its frame that isn't a call or a spawn.
    Goes,
    /// It called an action. Where that was its first call, it has ended.
    Acts,
    /// It entered the body of the procedure with this number.
    Enters(usize),
    /// It returned from a call into the procedure with this number.
    Returns(usize),
    /// It returned from its first call, and has ended.
    Ends,
    /// It spawned the thread with this number.
    Spawns(u32),
}

/// A move that was made.
///
/// `thread` is the number of the thread that moved, and `stood` is where this stood before the move. `globals` are the values
/// that the move changed in the store, by the places of the globals in the program. `locals` are those that it changed in
/// the topmost of the frames that the thread has both before the move and behind it, by the places of the procedure's
/// parameters, outputs and locals, in this order: after a return these are the results of the call, in the frame that waited.
#[derive(Drop)]
pub struct MadeMove {
    pub thread: u32,
    pub stood: Stand,
    pub kind: StepKind,
    pub globals: List<Changed>,
    pub locals: List<Changed>,
}
