//! The static rules on layers, E30 to E35, the plain programs of a layered one, and the cuts of its procedures.
#![tactic(auto)]

mod answer;
mod below;
mod cut;
mod held;
mod hidden;
mod introduced;
pub mod laws;
mod names;
mod parts;
mod plain;
mod ranges;
mod rule;
mod signature;
mod source;
mod span;
mod there;

pub use answer::{layered, refusal};
pub use cut::{Cut, CutKind, cuts};
pub use held::Held;
pub use plain::{at, low, top};
pub use source::{Layered, into_program, program};
