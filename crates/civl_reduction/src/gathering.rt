//! Moves of a thread, gathered at the front of a run, for any system of threads.
//!
//! Where each move of another thread may go behind a thread's moves, or something fails before, its moves are gathered at the
//! front of a run; or something fails sooner, without a move of another thread (`Gathered`). The theorems speak of all types
//! of configurations and moves, so they are lemmas: `gathered` and `stopped` of proofs/Gathering, before the turn of a block and
//! behind it in proofs/Places. How many blocks come of a run is counted in proofs/Counting, and block runs are joined with what
//! was gathered in proofs/Standing. [`laws`] has one law, on how moves are split.

pub mod laws;
