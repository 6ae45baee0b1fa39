//! The conditions of a layered program: which there are, in order, their names, variables and weights, and what it is to violate one.
//! Below them stand what expressions and actions see of a store ([`footprints`]), and what a body comes to between two cuts ([`paths`]).
#![tactic(auto)]

mod condition;
pub mod footprints;
mod listing;
pub mod naming;
pub mod paths;
mod places;
mod steps;
mod variables_all;
mod variables_calls;
mod variables_groups;
mod variables_paths;

pub use condition::{Condition, Part, Target, Variable};
pub use listing::listed;
pub use naming::name;
pub use variables_all::variables;
pub use variables_calls::{action_called, push_choices_at};
pub use variables_groups::{
    exists_at, exists_near, push_globals, push_locals, push_params, push_variable,
};
