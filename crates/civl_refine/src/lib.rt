//! What is assumed at a cut of a procedure, and what its blocks have to do, as terms: K9. The term of a condition's violation is
//! true exactly at the values of its variables that violate it ([`violation`]).
#![tactic(auto)]

mod assumption;
mod ends;
mod failures;
mod finding;
mod gates;
mod invariants;
mod owned;
mod performing;
mod ranks;
mod results;
mod start;
pub mod steadiness;
mod steady;
mod violations;
mod walking;
mod ways;

pub use assumption::assumed;
pub use ends::ends_block;
pub use failures::failing;
pub use finding::{held_numbers, start_at};
pub use invariants::invariant_of;
pub use owned::{held_ids, owned_items};
pub use start::Start;
pub use steady::steady_note;
pub use violations::violation;
pub use walking::{Walked, walk_from};
pub use ways::with_ways;
