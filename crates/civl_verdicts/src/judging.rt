//! The verdict on a layered program ([`verify`]), and what is found of each of its conditions ([`survey`]), by deciding one formula
//! after the other: that a store is initial, and then for each condition that values violate it. Who makes the terms of the formulas
//! is handed in ([`Makes`]); its contract says that they are the formulas'.

mod formula;
mod memory;
mod surveying;
mod verifying;

pub use formula::{Made, Makes};
pub use memory::Memory;
pub use surveying::survey;
pub use verifying::{decide_initial, verify};
