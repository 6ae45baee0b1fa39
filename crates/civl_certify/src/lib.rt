//! One condition of a layered program, with its certificate ([`certify`]): a clause set that stands for the violation and a log that
//! refutes it, values that violate the condition, or a log of as many learned clauses as were allowed.
#![tactic(auto)]

mod certified;
mod certifying;
mod examining;
pub mod laws;
pub mod proof_reports;

pub use certified::{Certified, Shown};
pub use certifying::certify;
