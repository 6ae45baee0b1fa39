//! Two honest provers: one tries given bits, and one splits on variables to a depth.
#![tactic(auto)]

mod branching;
mod laws;
mod looking;
mod memory;
mod probe;
mod refuting;
mod splitter;
mod splitting;

pub use laws::{square_wants_one_choice, tries_in_order};
pub use probe::Probe;
pub use splitter::Splitter;
