//! Plain programs as systems of threads, and the exchange of two of their steps.
//!
//! What a thread does next is told by the thread alone, apart from the store and the choices of a move (`Doing`): these
//! matter to calls of actions alone. So the reduction of civl_reduction::interleavings applies to plain programs (`Interleavings`, and
//! `program_reduces` of proofs/Reducing), and two steps of different threads may be exchanged where two calls of actions
//! may be (`Exchange`).

pub mod laws;
