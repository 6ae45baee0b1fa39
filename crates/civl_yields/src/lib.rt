//! The rules on yields and movers, E50 to E53, and the phases of blocks.
#![tactic(auto)]

mod answer;
mod called;
mod finders;
mod inside;
mod items;
pub mod laws;
mod listing;
mod marking;
mod movers;
mod phase;
mod rules;
mod strays;
pub mod verify;

pub use answer::{phases, refusal};
pub use called::called_action;
pub use listing::{Phases, phases_in};
