//! What may stand at a place of a text: which tokens the grammar of programs, scripts or outlines has there, behind the
//! tokens before the place, and whether the text may end there.
#![tactic(auto)]

mod candidate;
mod expected;
mod kind;
pub mod laws;
mod text;
mod trying;

pub use candidate::{Candidate, all_candidates};
pub use expected::{Expected, expected_at};
pub use kind::TextKind;
