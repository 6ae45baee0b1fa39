//! Bit-blasting: clauses that stand for a term.
//!
//! A boolean term becomes a clause set in conjunctive normal form. Its clauses are satisfiable exactly where some values of the term's variables make it true, and each place says where a variable's bits stand. A term is gone over by a loop over its nodes, so a deep one overflows nothing, and nodes that it doesn't reach take no part.
#![tactic(auto)]

mod blasted;
mod blasting;
mod flattened;
mod inputs;
pub mod laws;
mod memory;
pub mod reach;
pub mod rows;
mod steps;

pub use blasted::{Blasted, Place};
pub use blasting::blast_flat;
pub use flattened::blast;
pub use memory::Memory;
