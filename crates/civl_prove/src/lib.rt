//! Whether an outline of the topmost program proves that no run of it fails ([`prove`]): its goals are decided one after the other
//! (Owicki and Gries, "An axiomatic proof technique for parallel programs I", 1976).
#![tactic(auto)]

mod making;
pub mod outline_reports;
mod proved;
mod proving;

pub use proved::Proved;
pub use proving::prove;
