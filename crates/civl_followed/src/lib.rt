//! Failing block runs of a layer's program are followed by the program of the next layer.
//!
//! A block run that ends failing or challenged is gone through with its shadow, and beside it the configuration of the program
//! of the next layer ([`follow`]). A step outside the procedures of that layer is made as it is. A block without a new commit is
//! followed by no move, and one with a new commit by a call of the action that its procedure refines: the choices are the values
//! behind `with` at its end, or at the end of a block without a step with which it began. Where the block run is challenged, or
//! its end fails, the other program fails.
//!
//! What is followed, and what follows it, stands in specs/ (`Followed`).
#![tactic(auto)]

mod acting;
mod agreeing;
mod blocks;
mod choosing;
mod closing;
mod following;
mod opening;
mod walk;

pub use following::follow;
