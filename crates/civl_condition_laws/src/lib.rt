//! Laws on the conditions of layered programs: worked examples, and what conditions that hold say of states.
#![tactic(auto)]

pub mod laws;
pub mod states;
