//! The statements of a body at terms.
//!
//! A sweep over a body ([`Sweep`]) holds the terms of the state, with whether the path is here. Each plain statement, a cut and
//! the two ends of an `if` make of it what they make of the values (civl_moves::sweeps).
#![tactic(auto)]

mod branches;
mod calls;
mod expressions;
mod plain;
mod stops;
mod sweep;
pub mod sweeps;

pub use branches::{Fork, Front, front_with, join, part, swap, without};
pub use calls::{body_terms, pass_action};
pub use expressions::{body_term, note_term};
pub use plain::{implied, pass_assert, pass_assign, pass_commit, pass_intro};
pub use stops::{copied, halt, pass_cut, stop};
pub use sweep::{Stop, Sweep};
