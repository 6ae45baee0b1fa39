//! What a script says: its entries are a store, and its steps are moves.
#![tactic(auto)]

pub mod laws;
pub mod replays;
mod schedule;
mod written;

pub use schedule::{Schedule, read_schedule};
pub use written::value_of;
