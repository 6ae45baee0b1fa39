//! Laws of verdicts: each program has one, and those on one program don't speak against each other.

pub mod laws;
