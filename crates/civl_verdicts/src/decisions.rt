//! Whether a formula can be true: its term is blasted, the provers are asked, and what they answer is read back ([`decide`]).

mod deciding;
mod decision;
pub mod laws;
mod memory;
mod numbering;
mod trying;

pub use deciding::decide;
pub use decision::Decision;
pub use memory::Memory;
