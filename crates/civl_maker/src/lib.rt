//! Who makes the terms of the formulas that the verdict on a layered program decides: that a store is initial, and for each condition
//! that values violate it ([`Maker`]).
#![tactic(auto)]

mod maker;
mod makers;
mod violation;

pub use maker::Maker;
