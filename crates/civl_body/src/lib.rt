//! The paths of a procedure's body between two cuts, as terms.
#![tactic(auto)]

mod begin;
mod calls;
pub mod sizes;
mod statements;
mod way;
mod ways;

pub use begin::pass_from;
pub use calls::number_meant;
pub use way::{Walk, Way};
pub use ways::walk;
