//! What a refusal by a static rule is about.
#![tactic(auto)]

mod code;
mod counts;
mod declared;
mod expr_rule;
mod expressions;
mod fitting;
mod hidden;
mod inside;
mod kinds;
pub mod laws;
mod layers;
mod linear;
mod linearity;
mod missing;
mod naming;
mod part;
mod statements;
mod strays;
mod subject;
mod texts;
mod told;
mod twice;
mod uses;
mod writing;

pub use subject::{Counted, HeaderNumber, Limited, Needed, StatementKind, Subject};
pub use told::push_subject;
pub use writing::put_sort;
