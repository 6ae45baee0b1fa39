//! What a term reaches: itself, and the parts of each node that it reaches.
//!
//! The marks of these nodes are found by one loop from the term down, and the marked nodes' own weights sum to the term's weight.
//! A term's value depends on the variables that it reaches alone.

pub mod laws;
mod marking;
mod memory;

pub use marking::marks;
pub use memory::Memory;
