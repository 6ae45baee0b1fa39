//! The violation that values of a condition on actions show, as data.
//!
//! A rejected condition is a name with values. [`violation`] answers what they violate it by: the two orders of two actions
//! side by side, with the wait or with the globals and outputs in which they differ; the gate that one action makes false or
//! true for the other; the guard that is false at the offered choices; the permission that comes out twice or from nowhere;
//! the initial store in which an invariant is false; what an action leaves that loses an invariant or another thread's yield.
#![tactic(auto)]

mod call;
mod carried;
mod clash;
mod difference;
mod gates;
pub mod laws;
mod losing;
mod pairs;
mod starting;
mod straying;
mod told;
mod violations;
mod waiting;

pub use told::{linear_violation, violation};
pub use violations::{
    Carried, Carrier, Clash, Difference, Effect, Exchanged, Instance, Loss, Order, Pair, Place,
    Violation, Which,
};
