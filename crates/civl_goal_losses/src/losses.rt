// By what values violate a goal of an outline.

use civl_bits::Value;
use civl_clashes::{Effect, Instance, Loss};
use civl_firing::Store;
use civl_meaning::Activation;
use civl_tree::List;

/// A store, and a frame of a root before one of its statements or at its end.
#[derive(Drop)]
pub struct Moment {
    pub store: Store,
    pub frame: Activation,
}

/// Why a frame's statement fails.
#[derive(Drop)]
pub enum Fault {
    /// It calls the action with this number with these inputs, and its gate is false.
    FalseGate(usize, List<Value>),
    /// It is an assert that is false.
    FalseAssert,
}

/// By what values violate a goal of an outline.
#[derive(Drop)]
pub enum GoalLoss {
    /// `Invariant`: an initial store, in which the outline's invariant is false.
    Starts(Store),
    /// `Thread` and `Spawn`: in this store a procedure begins with this frame, of which its first note is false.
    Begins(Moment),
    /// `Linear`: in this store the gate is true and what goes in is apart. In what the action leaves, a permission is carried twice
    /// or comes from nowhere.
    Loses(Store, Instance, Effect, Loss),
    /// `Safe`: here the frame's statement fails.
    Fails(Moment, Fault),
    /// `Keep`: the call leads from here to there, where the outline's invariant is false.
    Breaks(Moment, Moment),
    /// `Next`: the statement leads from here to there, where the note is false before which the frame then stands.
    Leads(Moment, Moment),
    /// `Other`: the call leads from here to there, where the note of this frame of another thread is false.
    Interferes(Moment, Moment, Activation),
}
