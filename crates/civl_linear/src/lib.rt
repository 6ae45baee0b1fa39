//! The rules on linear locals, E40 to E43, and which locals a procedure holds at its cuts.
#![tactic(auto)]

mod answer;
mod calls;
mod finders;
mod flags;
pub mod laws;
mod listing;
mod modes;
mod passing;
mod places;
mod rules;
mod tracing;

pub use answer::{held, refusal};
pub use listing::{held_in, held_numbers};
pub use modes::{is_given, is_lent};
pub use places::names_in_proc;
pub use tracing::flags_before;
