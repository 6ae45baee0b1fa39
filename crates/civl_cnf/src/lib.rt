//! Literals, clauses, clause sets in conjunctive normal form, bits that assign their variables, logs of clauses, and gates that define new variables.
#![tactic(auto)]

mod bits;
mod clause;
mod cnf;
mod evaluation;
mod gates;
mod lit;
mod log;
mod memory;

pub use bits::Bits;
pub use clause::Clause;
pub use cnf::Cnf;
pub use evaluation::truth;
pub use gates::Gates;
pub use lit::Lit;
pub use log::Log;
pub use memory::Memory;
