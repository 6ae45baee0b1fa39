//! The terms of the conditions on actions, K2 to K8. The term of a condition's violation is true exactly at the values of its
//! variables that violate it ([`violation`]). It is put together of what the conditions ask of actions at given terms for the
//! globals, the parameters and the choices: whether permissions are lost ([`loses`]), whether two actions fail to be exchanged
//! ([`clashes`]), whether one makes the gate of the other false or true ([`spoils`], [`reveals`]), and whether an action fails to
//! fire with the choices that it offers ([`waits`]).
#![tactic(auto)]

mod ends;
mod exchange;
mod firing;
pub mod interfere;
mod items;
mod meeting;
mod pairs;
mod sequence;
mod settings;
mod violations;

pub use exchange::clashes;
pub use firing::waits;
pub use items::{apart_items, loses};
pub use meeting::Meeting;
pub use pairs::{reveals, spoils};
pub use sequence::{Sequence, run_in_turn};
pub use violations::violation;
