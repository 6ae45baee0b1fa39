// A path that was walked, and what it begins with.

use civl_bits::Value;
use civl_firing::Store;
use civl_tree::List;

/// A body on its way: the store; the values of the procedure's parameters, outputs and locals, in this order; `done`, which says
/// that a commit was passed; and whether a commit was passed where `done` was true.
#[derive(Drop)]
pub struct Moment {
    pub store: Store,
    pub locals: List<Value>,
    pub done: bool,
    pub again: bool,
}

/// The values for the choices of the call that is the statement with this number.
#[derive(Drop)]
pub struct Chosen {
    pub statement: usize,
    pub choices: List<Value>,
}

/// A value that a statement changes. Places count the globals, and behind them the parameters, outputs and locals of the
/// procedure.
#[derive(Clone, Copy)]
pub struct Changed {
    pub place: usize,
    pub before: Value,
    pub after: Value,
}

/// A statement that the path passes: its number; whether its condition was true, where it is an `if` or a loop; the values that
/// it changes, in the order of their places; and behind it `done`, and whether a commit was passed where `done` was true.
#[derive(Drop)]
pub struct Passage {
    pub statement: usize,
    pub took: Option<bool>,
    pub changed: List<Changed>,
    pub done: bool,
    pub again: bool,
}

/// How a path ends: past all statements; before a cut; before a call whose gate is false or an assert that is false; or before a
/// statement that isn't passed, as a call whose guard is false.
#[derive(Clone, Copy, Debug, PartialEq, Eq)]
pub enum Ending {
    Past,
    Comes,
    Fails,
    Stops,
}

/// A path: the statements that it passes, how it ends, the number of the statement before which it ends, or that of the exit, and
/// the state there.
#[derive(Drop)]
pub struct Walked {
    pub passed: List<Passage>,
    pub ending: Ending,
    pub at: usize,
    pub end: Moment,
}
