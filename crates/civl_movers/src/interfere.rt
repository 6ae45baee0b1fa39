//! The terms of initial stores ([`initial`]), and of the conditions on them and on actions that run beside other threads. The term
//! of a condition's violation is true exactly at the values of its variables that violate it ([`violation`]).

mod acting;
mod acts;
mod initials;
mod starts;
mod threads;
mod violations;

pub use acting::{Acting, act};
pub use initials::{initial, initial_at};
pub use starts::invariant_at;
pub use threads::argument_terms;
pub use violations::violation;
