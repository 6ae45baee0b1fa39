//! The parser of programs and scripts: it goes from tokens to the tree whose spelling they are, by the grammar's
//! phrases in the grammar's order.
#![tactic(auto)]

mod fault;
pub mod laws;
mod programs;
mod script;
mod texts;

pub use fault::ParseFault;
pub use programs::program;
pub use script::parse_script;
pub use texts::parse;
