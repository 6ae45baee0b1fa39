// Moves, plain programs and their configurations.

use civl_bits::Value;
use civl_firing::Store;
use civl_tree::{List, Program};

/// A move of an interleaving: the thread that takes a step, and values for the choices of the action that it calls.
/// At other statements the choices don't count.
#[derive(Drop)]
pub struct Move {
    pub thread: u32,
    pub choices: List<Value>,
}

/// A program without layers. `bodies` says of each procedure whether a call of it means its body; where not, the call
/// means the action that the procedure refines.
#[derive(Drop)]
pub struct Plain {
    pub program: Program,
    pub bodies: List<bool>,
}

/// What came of a step. Anything but `Moved` leaves the configuration as it was.
#[derive(Clone, Copy, Debug, PartialEq, Eq)]
pub enum Stepped {
    /// The step was made.
    Moved,
    /// The thread stands before a call of an action whose gate is true and whose guard is false, and the choices fit. A call
    /// of a name that isn't declared is blocked too.
    Blocked,
    /// There is no thread of this number.
    NoThread,
    /// The thread's call has returned: nothing is left to run.
    Ended,
    /// The thread stands before a call of an action whose gate is false, or before a false assert.
    Failing,
    /// The thread stands before a call of an action whose gate is true, and the choices differ from the action's in number
    /// or in a sort.
    BadChoices,
}

/// An activation record, a frame of a thread's stack: a procedure's number, the place before which it stands, and the
/// values of the procedure's parameters, outputs and locals, in this order.
///
/// The place is the number of a statement of the source, of any kind, or at the exit the number of the procedure's
/// statements. A frame that waits in a call stands at the call.
#[derive(Drop)]
pub struct Activation {
    pub procedure: usize,
    pub place: usize,
    pub locals: List<Value>,
}

/// Where a thread is: before its call, in it, with the frames below the topmost one (the nearest last) and the topmost
/// one, or after it.
#[derive(Drop)]
pub enum State {
    Before,
    Inside(List<Activation>, Activation),
    After,
}

/// A thread: its first frame, which is one call of a procedure with these arguments, and where it is.
#[derive(Drop)]
pub struct Running {
    pub callee: usize,
    pub args: List<Value>,
    pub state: State,
}

/// A configuration: a store and the threads, which are numbered from 0.
#[derive(Drop)]
pub struct Config {
    pub store: Store,
    pub threads: List<Running>,
}

/// What a step does to its thread, to the store and to the threads.
#[derive(Drop)]
pub enum Change {
    /// Nothing: the answer.
    Stays(Stepped),
    /// The locals and the place of the topmost frame.
    Goes(List<Value>, usize),
    /// The same, and the store.
    Acts(Store, List<Value>, usize),
    /// A frame on top. The one below waits at this place.
    Enters(Activation, usize),
    /// The topmost frame goes. This is the one below, after its call; `None` where that is the thread's first.
    Leaves(Option<Activation>),
    /// A thread behind all others, and the place of the topmost frame.
    Spawns(Running, usize),
}
