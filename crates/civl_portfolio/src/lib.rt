//! A portfolio of provers that are strangers (Gomes and Selman, "Algorithm portfolios", 2001): they are asked in turn, none is believed without its certificate (McConnell and others, "Certifying algorithms", 2011), and one whose certificate is refused is dropped. Behind them stands a search of the house.
#![tactic(auto)]

mod asking;
mod attempt;
mod hearing;
mod laws;
mod memory;
mod prover;

pub use asking::{Asked, ask};
pub use attempt::Attempt;
pub use laws::{certificates_stand_or_not, honest_first_stays, rounds_over_samples};
pub use memory::Memory;
pub use prover::Prover;
