//! Where things of a program stand in its text: lines and columns, and the tokens at which items, statements and expressions
//! begin.
#![tactic(auto)]

mod declaration;
mod formula;
mod item;
mod kind;
pub mod laws;
mod line;
mod phrase;
mod placed;
mod position;
mod search;
mod sort;
mod start;
mod statement;
mod walk;
mod within;

pub use formula::{Formula, InAction, InStatement, formula_at, formula_token};
pub use item::{item_token, program_count};
pub use line::line_at;
pub use placed::{formula_position, item_position, statement_position, token_position};
pub use position::{Position, position_at};
pub use start::statement_token;
