//! Annotations of programs: what a program says for its proof and not for its runs.
//!
//! They are the expressions of `yield`, the invariants of yield loops and of loops with a rank, and the invariants of steps. Programs that
//! differ in annotations alone run alike (laws `run_alike` and `mean_alike`), so annotations may be written into a program without a
//! change of what is claimed of its runs.
#![tactic(auto)]

pub mod laws;
