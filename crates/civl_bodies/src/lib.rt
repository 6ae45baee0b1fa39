//! What belongs to the procedures of a program whatever the condition, worked out once: a table of their statements, of their cuts
//! and of what paths pass from each cut ([`bodies_of`], [`body_at`], [`passed_at`]).
#![tactic(auto)]

mod body;
mod numbers;

pub use body::{Bodies, Body, bodies_of, body_at, passed_at};
pub use numbers::Numbers;
