//! What a condition assumes with the values that violate it, told in lines that point into the text.
//!
//! A condition speaks of values that meet what it assumes: the invariants of the step, what a cut says, gates of actions, and that no
//! permission is carried twice. [`push_assumed`] tells these, one line each, at the formulas and declarations that say them. What is
//! told is all that is assumed, but that what is done stays done (law `assumed_is_listed`).
#![tactic(auto)]

mod beginnings;
mod conditions;
pub mod laws;
mod lines;
mod names;
mod told;

pub use conditions::push_assumed;
