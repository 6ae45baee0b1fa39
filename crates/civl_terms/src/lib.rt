//! Graphs of terms with shared nodes.
//!
//! A term is the number of a node ([`Id`]) in a graph ([`Terms`]). A node's parts have smaller numbers, and an equal node is
//! found again, so what is shared is built once. Contracts see a graph as the list of its nodes. The value of a node, where
//! the variables have values, is that of its operation at its parts (specs/, `Graphs`); its weight is the size of a circuit
//! for it (`Weights`). Operations on constants, and of a node with itself or with a constant, are folded where the result is a
//! constant or one of the nodes (`civl_terms::foldings`); nothing else is rewritten.
#![tactic(auto)]

mod evaluate;
pub mod foldings;
pub mod laws;
mod node;
mod sorting;
mod terms;

pub use civl_tree::Memory;
pub use node::{Id, Node};
pub use terms::{Terms, value};
