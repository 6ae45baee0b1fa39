//! The report of a verdict on a program.

pub mod laws;
mod verdicts;

pub use verdicts::report_verdict;
