//! Proof outlines: a program with an invariant of its topmost program and notes before statements of its roots, as text
//! and as tree. Outlines of parallel programs are of S. Owicki and D. Gries, "An axiomatic proof technique for parallel
//! programs I" (1976).
#![tactic(auto)]

pub mod laws;
mod outline;
mod reading;

pub use outline::{Note, Outline};
pub use reading::parse_outline;
