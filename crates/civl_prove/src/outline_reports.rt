//! What the command `prove` finds of a program and an outline of its topmost program, and its report ([`prove_outline`],
//! [`report_proving`]). Outlines of parallel programs are of S. Owicki and D. Gries, "An axiomatic proof technique for parallel
//! programs I" (1976).

pub mod laws;
mod proving;
mod reports;

pub use proving::{Proving, prove_outline};
pub use reports::report_proving;
