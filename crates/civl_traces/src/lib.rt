//! A path of a procedure, walked with values: which statements it passes, what each changes, and where it ends.
//!
//! The definitions stand in specs/, over the paths of [`civl_conditions`]: a path told statement by statement (`Traces`), and
//! the same with what changes in place of whole states (`Told`). [`laws`] has theorems about them, and worked examples.
//!
//! [`walk`] tells the path from a cut, as when a condition on the path was violated by the values at its beginning.
#![tactic(auto)]

mod changing;
pub mod laws;
mod meant;
mod passing;
mod walked;
mod walking;

pub use walked::{Changed, Chosen, Ending, Moment, Passage, Walked};
pub use walking::walk;
