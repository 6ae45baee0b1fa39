//! On which of its values a violation doesn't stand.
//!
//! A condition that is violated comes with a value for each of its variables, and many of them don't matter. [`marks_of`] tries for each
//! value, in their order, another one of the same sort, and keeps it where the condition is violated too. So with all the other values
//! at once it still is (law `still_violated`), and what has none is what a reader has to look at. [`put_marks`] writes them as a line.
#![tactic(auto)]

pub mod laws;
mod marks;
mod others;
mod texts;

pub use marks::marks_of;
pub use texts::put_marks;
