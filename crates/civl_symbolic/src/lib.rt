//! The circuits of the language's operators: literals for the value of an operation, from literals for the values of its operands.
//!
//! A symbolic value ([`Symbolic`]) has a value under each assignment of a clause set's variables. Each operation answers the symbolic value of the operator (civl_firing::values) at its operands, over a clause set that each assignment of the old variables extends to in exactly one way. It takes at most two variables for each unit of the operator's weight.
#![tactic(auto)]

pub mod laws;
mod leaves;
mod moves;
mod one_operand;
mod symbolic;
mod two_operands;

pub use leaves::{constant, variable};
pub use moves::{join, slice, widen};
pub use one_operand::unary;
pub use symbolic::{Lits, Symbolic};
pub use two_operands::{binary, pick};
