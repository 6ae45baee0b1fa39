//! The words of the command line of `civl_explain`, and what they ask for ([`asked_of`]).
//!
//! The words are read with `clap`: what it does with them is stated in specs/ by its own records (`Line`), and the command that they
//! are those of by what it finds in them (`Words`).
#![tactic(auto)]

pub mod laws;
mod line;
mod memory;
mod words;

pub use memory::Memory;
pub use words::{Command, Request, asked_of};
