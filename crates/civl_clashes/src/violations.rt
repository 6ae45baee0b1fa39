// Violations of conditions on actions.

use civl_bits::Value;
use civl_firing::Store;
use civl_tree::List;

/// An action by its number, with values for its inputs and its choices.
#[derive(Drop)]
pub struct Instance {
    pub action: u32,
    pub inputs: List<Value>,
    pub chosen: List<Value>,
}

/// What an action leaves: the store and its outputs.
#[derive(Drop)]
pub struct Effect {
    pub store: Store,
    pub outs: List<Value>,
}

/// A store and two actions, of which the first is made before the second.
#[derive(Drop)]
pub struct Pair {
    pub store: Store,
    pub first: Instance,
    pub second: Instance,
}

/// What the action leaves that is made first, and what the other one leaves behind it.
#[derive(Drop)]
pub struct Order {
    pub first: Effect,
    pub second: Effect,
}

/// The first or the second action of a pair.
#[derive(Clone, Copy, Debug, PartialEq, Eq)]
pub enum Which {
    First,
    Second,
}

/// A global by its number, or an output of one of two actions by its place, both from 0.
#[derive(Clone, Copy, Debug, PartialEq, Eq)]
pub enum Place {
    Global(usize),
    Output(Which, usize),
}

/// A place, with its value behind the first and then the second action, and with its value behind the exchanged order.
#[derive(Drop)]
pub struct Difference {
    pub place: Place,
    pub kept: Value,
    pub exchanged: Value,
}

/// What comes of the second action of a pair and then the first.
#[derive(Drop)]
pub enum Exchanged {
    /// The second action has a false guard in the store where it begins.
    WaitsAtOnce,
    /// The second action is made, and then the first one has a false guard.
    WaitsBehind(Effect),
    /// Both are made, the second one first, and what they leave differs at these places, of which there is one at least.
    Ends(Order, List<Difference>),
}

/// Two actions that can't be exchanged: what comes of the first and then the second, and what of the exchanged order.
#[derive(Drop)]
pub struct Clash {
    pub kept: Order,
    pub exchanged: Exchanged,
}

/// What carries permissions out of an action: a linear global by its number, a lent parameter or a linear output by its
/// place, all from 0.
#[derive(Clone, Copy, Debug, PartialEq, Eq)]
pub enum Carrier {
    Global(usize),
    Param(usize),
    Out(usize),
}

/// A carrier with the permissions that it carries.
#[derive(Drop)]
pub struct Carried {
    pub carrier: Carrier,
    pub permissions: List<u32>,
}

/// A permission, by its number, that an action doesn't keep.
#[derive(Clone, Copy, Debug, PartialEq, Eq)]
pub enum Loss {
    /// Two carriers carry it out.
    Twice(u32, Carrier, Carrier),
    /// This carrier carries it out, and nothing carried it in.
    Nowhere(u32, Carrier),
}

/// How values violate a condition on actions.
#[derive(Drop)]
pub enum Violation {
    /// K1: an initial store, in which the invariant is false.
    Starts(Store),
    /// K2: in this store the gate is true and what goes in is apart. In what the action leaves a permission is carried twice:
    /// the first that is, in the order of what comes out (globals, lent parameters, outputs). Where none is, the first one that
    /// didn't go in.
    Loses(Store, Instance, Effect, Loss),
    /// K3 and K5: both gates are true, and the two orders don't come to the same. The pair stands in the order that is
    /// given, x and y in K3 and y and x in K5.
    Clashes(Pair, Clash),
    /// K4 and K6: both gates are true, and the second one's is false in what the first action leaves. The first is x in K4
    /// and y in K6.
    Spoils(Pair, Effect),
    /// K7: the gate of x, the first action, is true, and that of y false, which is true in what x leaves.
    Reveals(Pair, Effect),
    /// K8: in this store the gate is true, and the guard is false at the offered choices, which the instance has.
    Waits(Store, Instance),
    /// K11: in this store the invariants of the step hold and the gate is true, what goes in is apart, and what the action leaves
    /// loses the target of the condition.
    Strays(Store, Instance, Effect),
}
