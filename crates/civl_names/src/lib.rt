//! The static rules on names, E10 and E11: names that stand twice, and unknown names. Both are decided by sets of the names
//! that are declared, so in a time that grows with the text.
#![tactic(auto)]

mod declare;
mod known;
mod misnamed;
mod name_set;
mod named;
mod procs;
mod twice;
mod unknown;
pub mod walks;

pub use misnamed::first_misnamed;
