//! The shadow beside a run of a layer's program.
//!
//! Beside a block run of the program of a layer go the values of the globals that the next layer introduces, as the intros
//! have set them, and for each thread whether its frame of a procedure of the next layer has passed a commit; civl_reduction::blocks says
//! which they are. Here they are computed: where the program starts ([`shadowed_start`]), and by each step
//! ([`shadowed_step`]). [`is_challenged`] tells whether the gate of a refined action is false where a block begins.
//!
//! The parts are for the crates that stand on this one: what commits and intros do ([`notes`]), frames of a layer's
//! procedures ([`frames`]), and the store with the shadow's values ([`merged`]).
#![tactic(auto)]

mod challenging;
pub mod frames;
mod merging;
pub mod notes;
mod shadow;
mod stepping;

pub use challenging::{allows, is_challenged, refined_action};
pub use merging::merged;
pub use shadow::{Shadow, Shadowed};
pub use stepping::{shadowed_start, shadowed_step};
