//! Declarations but procedures, and the entries and steps of scripts, read from tokens.
//!
//! Each call answers as its reader does (`specs/readers`), and each reader reads what the grammar spells, and nothing else.
#![tactic(auto)]

mod actions;
mod declarations;
mod forms;
mod steps;

pub use actions::ActionPhrase;
pub use declarations::{GlobalPhrase, InvariantPhrase, ThreadPhrase, init};
pub use steps::{EntryPhrase, StepPhrase};
