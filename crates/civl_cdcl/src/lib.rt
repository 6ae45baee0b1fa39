//! A search for bits that make clauses true, by conflict-driven clause learning (Marques-Silva and Sakallah, "GRASP: a search algorithm for propositional satisfiability", 1999; Moskewicz and others, "Chaff: engineering an efficient SAT solver", 2001), with a certificate for each answer.
#![tactic(auto)]

mod analysis;
mod choice;
mod hints;
mod laws;
mod levels;
mod memory;
mod notes;
mod order;
mod outcome;
mod restarts;
mod solving;
mod teaching;
mod turn;

pub use laws::{
    half_has_models, model_excludes_refutation, spent_budget_is_small, square_is_refuted,
};
pub use memory::Memory;
pub use outcome::Outcome;
pub use solving::{bits_of, solve};
