//! Moves of a thread, gathered at the front of a run of a layer's program.
//!
//! The steps of a block are right movers up to its turn and left movers behind it. So in a run of a checked program the moves of
//! a thread up to its turn can be gathered at the front of the early steps before it, and those behind the turn at the front of
//! what follows; or something fails sooner, without a move of another thread ([`laws`]). The program of a layer is seen as a
//! system of threads over its own configurations and moves (`System`).

pub mod laws;
