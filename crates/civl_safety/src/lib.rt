//! What an outline of the topmost program shows.
//!
//! An outline fits a program where its holds and notes are expressions of their places, threads run roots and roots call actions
//! alone; where all its goals hold too (`Outlined`), it keeps in every run: each store meets the invariant, no thread holds a
//! permission of another's, and each thread stands at a place whose note holds. So no run of the topmost program fails, and where
//! all conditions of the program hold, no interleaving of the lowest program does (`Safe`). [`laws`] has the theorems.
#![tactic(auto)]

pub mod laws;
