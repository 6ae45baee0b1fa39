//! The paths of a procedure's body between its cuts, and what runs of a frame have to do with them.
//!
//! [`met_from`] tells which statements the paths from a cut pass, and before which they end; [`ends_from`] gives these ends by
//! the numbers of the cuts.

mod ends;
mod kinds;
pub mod laws;
mod met;

pub use ends::ends_from;
pub use kinds::{is_entry, is_rank_loop};
pub use met::{Met, met_from};
