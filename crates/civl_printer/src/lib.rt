//! The canonical text of a program: the tokens of its spelling, each with one byte behind it.
//!
//! What is printed is read back as the same program (`laws`): a blank or a line feed ends every token where it ends.
#![tactic(auto)]

pub mod laws;
mod program;

pub use program::print;
