//! The story of a goal of an outline that isn't proved, as lines.
//!
//! An unproved goal is a name with values. [`civl_goal_losses`] answers what these violate it by, as data, and [`push_goal_story`] tells it
//! line by line, each at the statement, the action, the note or the hold of the text that it speaks of. [`push_goal_assumed`] tells what a
//! goal of a statement assumes. The definitions stand in specs/ (`Places`, `Frames`, `GoalStories`, `Assumed`).
#![tactic(auto)]

mod assumed;
mod beginnings;
mod frames;
mod holds;
pub mod laws;
mod lines;
mod notes;
mod places;
mod statements;
mod told;
mod values;

pub use assumed::push_goal_assumed;
pub use places::{hold_at, note_at};
pub use told::push_goal_story;
