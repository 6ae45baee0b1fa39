//! Schedules replayed: a plain program runs from a store by a list of moves, up to the first step that isn't made
//! ([`run`]).
//!
//! The definition stands in specs/ (`Trace`): what a schedule gives, over the start and the step of a configuration of
//! civl_meaning. [`laws`] has theorems about it, and worked examples.

pub mod laws;
mod replay;
mod trace;

pub use replay::run;
pub use trace::Trace;
