//! The tokens of a source text: at each place outside blanks and comments the longest token that begins there.
//!
//! A token is a name, a number, a reserved word or a sign. Blanks are the bytes 9, 10, 13 and 32, and a comment runs
//! from `//` to the next line feed or to the end. Any bytes may be read, also such as are no UTF-8.
#![tactic(auto)]

mod fault;
mod gap;
pub mod laws;
mod lex;
mod number;
mod run;
mod sign;
mod table;
mod token;
mod word;

pub use fault::LexFault;
pub use lex::tokens;
pub use token::{Kind, Token};
pub use word::is_name;
