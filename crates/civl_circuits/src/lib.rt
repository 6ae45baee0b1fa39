//! Circuits: for each operation on truth values and words, literals that have its value wherever the clauses are true. They grow by the gates of civl_cnf; a gate that was built before is found again, and constants are folded.
//!
//! A word is a list of literals, the lowest bit first. Each call that adds gates says how many variables it may add, and that each assignment of the old variables keeps exactly one extension.
#![tactic(auto)]

mod adding;
mod bitwise;
mod choosing;
mod circuit;
mod comparing;
mod constants;
mod dividing;
mod equality;
mod folding;
mod gate;
pub mod laws;
mod literals;
mod multiplying;
mod sharing;
mod shifting;
mod table;
mod wiring;

pub use adding::{add, add_with_carry, negate, subtract};
pub use bitwise::{bitwise_and, bitwise_or, bitwise_xor, complement};
pub use choosing::choose;
pub use circuit::Circuit;
pub use comparing::{less, less_or_equal, signed_less, signed_less_or_equal};
pub use constants::start;
pub use dividing::{Division, divide};
pub use equality::{equal, is_zero};
pub use literals::{iff, implies, or};
pub use multiplying::multiply;
pub use shifting::{arithmetic_shift_right, mask, shift_left, shift_right};
pub use wiring::{constant, join, slice, widen};
