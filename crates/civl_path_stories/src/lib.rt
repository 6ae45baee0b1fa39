//! The story of a condition K9 or K10 that fails at its values, as lines: where its path begins and what is around it, each statement
//! that the path passes, and what is lost.
//!
//! The definitions stand in specs/ (`Paths`, `Around`), over the paths and the losses of [`civl_losses`] and the lines of [`civl_lines`].
#![tactic(auto)]

mod around;
mod begin;
mod blocks;
mod changes;
mod ends;
pub mod formulas;
pub mod gates;
pub mod laws;
pub mod naming;
mod notes;
mod passed;
mod route;
mod story;
mod targets;
mod tokens;

pub use story::push_path_story;
