//! The trial program: a spinlock and a counter above it, so many times beside each other ([`trial`]). It grows with the
//! number of copies, and so do its conditions, of which each holds.
//!
//! The definition stands in specs/: the declarations of one copy (`Copies`), and the program of so many (`Trial`).
#![tactic(auto)]

mod actions;
mod globals;
pub mod laws;
mod phrases;
mod procs;
mod program;

pub use program::trial;
