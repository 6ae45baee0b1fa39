//! Why a formula isn't true in a scope, and which names it reads.
//!
//! The definitions stand in specs/: the innermost parts of a formula that aren't true (`Reasons`), and the names that it reads
//! (`Reads`). [`laws`] has theorems about them, and worked formulas.
#![tactic(auto)]

mod count;
pub mod laws;
mod reads;
mod reasons;

pub use count::expr_count;
pub use reads::{Reading, read_names};
pub use reasons::{Part, false_parts};
