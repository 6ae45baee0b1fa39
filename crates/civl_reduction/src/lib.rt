//! Reduction: interleavings of a layer's program become runs block by block, which the program of the layer above follows
//! (Lipton, "Reduction: a method of proving properties of parallel programs", 1975; Kragl and Qadeer, "Layered concurrent
//! programs", 2018).
//!
//! The modules stand one above the other. [`interleavings`] and [`gathering`] speak of any system of threads; [`exchanges`] makes
//! a plain program such a system. [`permissions`] says that permissions stay apart along runs, and [`mover_laws`] what the
//! conditions on movers say of whole stores. Then, of a program that keeps the rules and all of whose conditions hold:
//! [`checked`] that movers exchange, [`open_blocks`] that frames follow the paths of the conditions, [`blocks`] where threads
//! stand in blocks and what goes beside a block run, [`staged`] that a failing interleaving gives a failing block run,
//! [`gathered`] that a thread's moves come to the front, and [`simulation`] that no failure is hidden.
//!
//! What is run are two calls. Two moves of different threads are exchanged ([`swap`]): the list runs to the same configuration,
//! or a shorter one to a failing configuration, or neither is so; and chosen moves are brought to the front ([`to_front`]). The
//! definition stands in specs/ (`Swap`).
#![tactic(auto)]

pub mod blocks;
pub mod checked;
pub mod exchanges;
mod fronting;
pub mod gathered;
pub mod gathering;
pub mod interleavings;
pub mod laws;
pub mod mover_laws;
pub mod open_blocks;
pub mod permissions;
mod running;
pub mod simulation;
pub mod staged;
mod swapped;
mod swapping;

pub use fronting::to_front;
pub use swapped::Swapped;
pub use swapping::swap;
