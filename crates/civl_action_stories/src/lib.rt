//! The story of a condition on actions at its values, as lines.
//!
//! A rejected condition is a name with values. civl_clashes answers what these violate it by, as data, and [`push_violation`]
//! tells it line by line, each at the action or the invariant of the text that it speaks of.
#![tactic(auto)]

mod acting;
mod clashes;
mod gates;
pub mod laws;
mod lines;
mod losses;
mod starts;
mod strays;
pub mod texts;
mod told;

pub use told::{push_loss_story, push_violation};
