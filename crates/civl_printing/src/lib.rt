//! The canonical texts of tokens, expressions, statements and declarations. It serves civl_printer alone.
#![tactic(auto)]

mod actions;
pub mod declarations;
mod expressions;
pub mod phrases;
mod procedures;
mod statements;
pub mod tokens;
