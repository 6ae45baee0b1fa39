//! The tree of a source text, as the grammar names its parts, and the tokens that spell it.
//!
//! A tree is plain data: contracts see a [`List`] as a list and a [`Boxed`] value as the value, so two equal trees
//! are equal values.
#![tactic(auto)]

mod action;
mod boxed;
mod copy;
mod expr;
pub mod laws;
mod list;
mod memory;
mod name;
mod program;
mod refusal;
mod results;
mod script;
mod stmt;

pub use action::{Action, Choice, Mode, Mover, Param, Update};
pub use boxed::Boxed;
pub use copy::{TryClone, copy_expr, copy_list, copy_program, copy_stmt, copy_stmts};
pub use expr::{Expr, One, Sort, Two};
pub use list::List;
pub use memory::Memory;
pub use name::Name;
pub use program::{Global, Invariant, Local, Proc, Program, Refines, Thread};
pub use refusal::{Refusal, Refused};
pub use results::{beside, both, three};
pub use script::{Entry, Literal, Script, Told};
pub use stmt::Stmt;
