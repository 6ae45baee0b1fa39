//! The static rules of programs, E10 to E24: names that stand twice and unknown names, which civl_names decides, counts,
//! widths, sorts, indices, numbers of arguments and the size of a store.
#![tactic(auto)]

mod answer;
mod arity;
mod count;
mod declared;
mod exprs;
pub mod names;
mod parts;
mod rule;
pub mod sorts;
mod typed;
mod uses;
pub mod view;

pub use answer::{check, into_program, refusal};
pub use arity::is_updated;
pub use declared::is_linear;
pub use typed::Typed;
