//! What is lost on a path: by what values violate a condition on the paths of a procedure (K9, K10).
//!
//! The definitions stand in specs/ (`Losses`), over the conditions of [`civl_conditions`] and the traces of [`civl_traces`]. [`laws`] says
//! that a loss is told exactly where the values violate the condition.
//!
//! Code does what they say: it tells the path of a condition from the condition's values ([`story_of`]), and what is lost on it
//! ([`loss_of`]): of a part of K9, or of the target of K10, where what is assumed at the cut holds.
#![tactic(auto)]

mod arriving;
mod assuming;
mod beginning;
mod behind;
mod blocks;
mod choices;
mod commits;
mod differing;
mod gates;
pub mod laws;
mod losing;
mod loss;
mod notes;
mod paths;
mod performing;
mod ranks;
mod route;
mod story;
mod stutters;

pub use beginning::Beginning;
pub use losing::loss_of;
pub use loss::Loss;
pub use story::{Story, story_of};
