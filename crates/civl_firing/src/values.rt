//! The operators of expressions, and values by their sorts.
//!
//! Each operator of the language is a function of values ([`one`], [`two`], [`pick`], [`get`] and so on) and total: where
//! the sorts of its operands don't fit, its value is [`nothing`]. The operations are those of SMT-LIB's theories
//! FixedSizeBitVectors and ArraysEx and its Core. A value is of a sort or it isn't ([`is_of`]), and each sort has a zero
//! ([`zero`]). The definitions stand in specs/ (`Operators`, `Values`); everything above that gives expressions a value
//! cites them. No call takes memory.

pub mod laws;
mod operators;
mod sorts;

pub use operators::{fill, get, join, literal, nothing, one, pick, set, slice, two, widen};
pub use sorts::{is_of, is_true, sort_of, zero};
