//! Programs that keep all static rules, with what the rules found of them.

mod admission;
pub mod laws;

pub use admission::{Admitted, admit, locals_held, phases_left, source};
