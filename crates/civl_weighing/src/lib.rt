//! Weights as far as the limit tells them apart, and the weights of expressions, of the bits of variables and of lists. It serves
//! civl_weights, by civl_weights::sums, and civl_outlined.
#![tactic(auto)]

pub mod bits;
pub mod exprs;
pub mod lists;
pub mod weight;
