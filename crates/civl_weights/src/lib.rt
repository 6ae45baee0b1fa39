//! The weights of the conditions of a layered program, and its conditions, where none weighs too much.
#![tactic(auto)]

mod answer;
mod kinds;
pub mod sums;

pub use answer::{TooMuch, conditions, weigh_initial};
pub use kinds::{instance_bits, keep_of, step_of, weigh};
