//! How operations on constants, and on one operand twice, are folded.
//!
//! An operation is folded where its result is a constant or one of its operands whatever the operands that aren't constants
//! are. The rules are a table (specs/, `Folding`, over the constants of `Constants`) for all operators of both versions of the
//! language; the functions answer what the table says, and [`laws`] says that a folding has the operation's value. No call
//! takes memory.

mod constants;
mod folded;
mod folding;
pub mod laws;
mod pairs;

pub use folded::Folded;
pub use folding::{fill, get, join, one, pick, set, slice, widen};
pub use pairs::two;
