//! The goals of an outline: what has to hold so that no interleaving of the topmost program fails (Owicki and Gries, "An axiomatic proof technique for parallel programs I", 1976). Which there are in order, their names and variables, and what it is to violate one; and the two rules on outlines.
#![tactic(auto)]

mod goal;
mod holding;
pub mod laws;
mod listing;
mod naming;
mod roots;
mod rules;
mod sayings;
mod spots;
mod variables;

pub use goal::Goal;
pub use holding::{held_before, held_counts};
pub use listing::goals;
pub use naming::goal_name;
pub use rules::{first_descending, first_unfit};
pub use spots::{Spot, spot_of};
pub use variables::goal_variables;
