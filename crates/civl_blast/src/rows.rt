//! Terms without rows.
//!
//! [`flatten`] gives for a boolean term one that has its value and reaches no row: rows are expanded to their cells, as
//! arrays with finitely many indices may be (Stump, Barrett, Dill, Levitt, "A decision procedure for an extensional theory
//! of arrays", 2001). Each cell of a variable that is a row gets a variable of its own.

mod building;
mod cells;
mod compare;
mod expand;
mod flat;
pub mod laws;
mod memory;
mod node;
mod numbers;
mod plain;
mod read;
mod rowed;
mod walk;
mod write;

pub use flat::{Cell, Flat};
pub use memory::Memory;
pub use walk::flatten;
