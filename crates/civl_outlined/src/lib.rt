//! The goals of an outline that fits the program and none of whose goals weighs too much ([`outlined`]): proof outlines of the
//! topmost program (Owicki and Gries, "An axiomatic proof technique for parallel programs I", 1976). Each part of an outline and
//! of the program is weighed once.
#![tactic(auto)]

mod answer;
mod notes;
mod places;
mod roots;
mod said;
mod sizes;
mod statements;
mod weights;

pub use answer::{OutlineFault, outlined};
