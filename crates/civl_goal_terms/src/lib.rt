//! The terms of the goals of an outline ("An axiomatic proof technique for parallel programs I", S. Owicki and D. Gries, 1976). The
//! term of a goal's violation is true exactly at the values of its variables that violate it.
#![tactic(auto)]

mod apart;
mod assumed;
mod begins;
mod failing;
mod frames;
mod holds;
mod notes;
mod others;
mod places;
mod settings;
mod sorts;
mod statements;
mod steps;
mod tests;
mod violation;

pub use sorts::goal_sorts;
pub use violation::goal_violation;
