//! The weights of a layered program's parts, from which those of its conditions are added up: of actions, statements, steps,
//! notes, cuts and targets. It serves civl_weights and civl_outlined.

pub mod actions;
pub mod cuts;
mod met;
pub mod notes;
pub mod statements;
pub mod steps;
pub mod tables;
pub mod targets;
