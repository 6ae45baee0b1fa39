//! The moves of a schedule one by one: who moved, where it stood, what its step did, and which values that changed.
//!
//! [`tell_moves`] replays a schedule of a plain program, as [`run`](civl_script::replays::run) does, and tells of each move
//! that is made. The definitions stand in specs/ (`Stands`, `History`), over the configurations and steps of
//! [`civl_meaning`], and [`laws`] has theorems about them, and worked examples.
#![tactic(auto)]

mod ahead;
mod changes;
mod counting;
mod kept;
pub mod laws;
mod moves;
mod replay;
mod run;
mod spots;
mod stand;
mod telling;

pub use changes::Changed;
pub use moves::{MadeMove, StepKind};
pub use run::{History, tell_moves};
pub use stand::Stand;
