//! Replays a log of learned clauses by reverse unit propagation (Goldberg and Novikov, "Verification of proofs of unsatisfiability for CNF formulas", 2003; Van Gelder, "Verifying RUP proofs of propositional unsatisfiability", 2008), and the laws of these proofs.
#![tactic(auto)]

mod answer;
mod conflicts;
mod following;
mod laws;
mod memory;
mod replaying;
mod taking;

pub use answer::Replay;
pub use laws::{
    complete_run_shows_new, new_clause_is_no_superset, rup_clause_is_entailed,
    spent_clause_is_no_superset,
};
pub use memory::Memory;
pub use replaying::{has_empty, replay};
