//! Reduction of interleavings to block runs, and their simulation, for any system of threads.
//!
//! A system's runs are lists of moves, each of one thread. The steps of a thread come in blocks. Where the steps of a block
//! are right movers up to its turn and left movers behind it, each run that ends failing can be turned into one in which no
//! thread steps inside a block of another (Lipton, Reduction: a method of proving properties of parallel programs, 1975);
//! and where another system follows each block, it fails too. The definitions stand in specs/: runs and block runs
//! (`Systems`, `Runs`), what the reduction asks (`Reduction`) and the simulation (`Simulation`), and threads over a shared
//! store with gated atomic actions (`Threads`). The theorems speak of all types of configurations and moves, so they are
//! lemmas: `reduced` of proofs/Reducing, `simulated` of proofs/Simulating, `layer_is_sound` of proofs/Layering, and
//! `threads_are_reducible` of proofs/Threading. [`laws`] has a worked system of two locks, to which the theorems
//! aren't applied.

pub mod laws;
