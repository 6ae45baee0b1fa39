//! By what values violate a goal of an outline, as data.
//!
//! A goal that isn't proved is a name with values. [`goal_loss`] answers what they violate it by: the initial store in which the
//! outline's invariant is false; the first frame of a procedure, of which its first note is false; the permission that comes out twice
//! or from nowhere; the call whose gate is false, or the assert; and where a statement leads, with the invariant, the next note or the
//! note of another thread that is false there.
#![tactic(auto)]

mod assuming;
mod beginning;
mod faults;
mod interfering;
pub mod laws;
mod losing;
mod losses;
mod reading;
mod saying;
mod stepping;
mod told;

pub use losses::{Fault, GoalLoss, Moment};
pub use told::goal_loss;
