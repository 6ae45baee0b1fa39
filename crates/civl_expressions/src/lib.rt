//! What statements and declarations are made of, read from tokens: names, sorts, operators, expressions, lists of
//! arguments, and the headings of actions and procedures.
//!
//! Each call answers as its reader does (`specs/readers`), and each reader reads what the grammar spells, and nothing else.
#![tactic(auto)]

mod brackets;
mod expressions;
mod forms;
mod names;
mod operators;
mod params;
mod sorts;

pub use brackets::open_bracket;
pub use expressions::{ExprPhrase, args, ended_expr, expr};
pub use names::{NamePhrase, name};
pub use params::{Heading, read_heading};
pub use sorts::sort;
