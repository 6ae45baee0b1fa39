//! Statements and procedures, read from tokens.
//!
//! Each call answers as its reader does (`specs/readers`), and each reader reads what the grammar spells, and nothing else.
#![tactic(auto)]

mod forms;
mod procedures;
mod statements;

pub use procedures::ProcPhrase;
pub use statements::{StmtPhrase, stmt};
