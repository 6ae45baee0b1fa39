//! The parts of formulas: terms that say whether all or some of several tests hold, whether values are the same, and whether
//! permissions are apart; and the variables of a formula.
//!
//! What a term says is a function of the values of the variables (specs/, `Said`), and each call says it for whatever its
//! operands say, so a caller composes them as it composes the terms.

mod carried;
mod equality;
mod given;
mod tests;

pub use carried::{Carried, are_included, no_items, with_global, with_word};
pub use equality::{all_same, same};
pub use given::variables;
pub use tests::{all_of, any_of, both, either, negated};
