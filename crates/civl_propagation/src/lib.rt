//! Unit propagation over clauses that may grow, with decisions that can be taken back (Davis, Logemann and Loveland, "A machine program for theorem-proving", 1962; Marques-Silva and Sakallah, "GRASP: a search algorithm for propositional satisfiability", 1999), by two watched literals a clause (Moskewicz, Madigan, Zhao, Zhang and Malik, "Chaff: engineering an efficient SAT solver", 2001; Een and Sorensson, "An extensible SAT-solver", 2003).
#![tactic(auto)]

mod choice;
mod clauses;
mod engine;
mod memory;
mod pairs;
mod propagation;
mod trail;
mod visits;
mod watches;

pub use clauses::Clauses;
pub use engine::Engine;
pub use memory::Memory;
pub use propagation::Ended;
pub use trail::{Step, Trail};
