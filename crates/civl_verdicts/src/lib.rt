//! Verdicts on a layered program, and what is found of all its conditions; and what each of these says.
//!
//! [`models`] reads bits back to values, [`decisions`] decides one formula, [`judging`] a program's conditions one after the
//! other; [`reports`] and [`verdict_reports`] write what was found. [`findings`] and [`judgements`] are laws: each program has
//! such an answer, and two answers on one program don't speak against each other.
#![tactic(auto)]

pub mod decisions;
pub mod findings;
pub mod judgements;
pub mod judging;
pub mod laws;
pub mod models;
pub mod reports;
mod survey;
mod verdict;
pub mod verdict_reports;

pub use survey::{Found, Survey};
pub use verdict::{Counter, Verdict};
