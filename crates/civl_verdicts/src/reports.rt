//! The report of the command `conditions`: what is found of each condition of a program. And the parts of it that other reports have.

mod counting;
mod findings;
pub mod laws;
mod refusals;
mod values;
mod writing;

pub use findings::report_survey;
pub use refusals::{put_formula, put_no_initial, report_heavy};
pub use values::put_values;
pub use writing::{put, put_number, put_value};
