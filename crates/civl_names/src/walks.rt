//! The first part of a program that breaks a static rule, for rules of any crate: a rule tells of each part by itself whether
//! it breaks it, and the crate goes over the parts in the order of item and statement.

mod broken;
mod flat;
mod found;
mod item;
pub mod laws;
mod rule;
mod walk;

pub use broken::{Decides, first_broken};
pub use flat::statements;
pub use found::{Finder, first_in_procs};
pub use rule::{NoteTest, Test, first_with};
pub use walk::first_in_body;
