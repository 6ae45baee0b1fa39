//! Unit propagation over clauses (Davis and Putnam, "A computing procedure for quantification theory", 1960): what it is, by the sets of literals that are closed under it; what one clause says under marks; occurrence lists; and propagation from marks that are given.
#![tactic(auto)]

mod laws;
mod marking;
mod marks;
mod memory;
mod occurrences;
mod propagation;
mod rule;

pub use laws::complete_run_decides;
pub use marks::Marks;
pub use memory::Memory;
pub use occurrences::{Occurrences, occurrences_of};
pub use propagation::{assume, clause_at, propagate};
pub use rule::{Rule, rule_of};
