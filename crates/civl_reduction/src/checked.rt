//! What follows for a program that keeps the rules and all of whose conditions hold.
//!
//! The conditions are listed for each step and action; what they say of the values of their variables they say of all
//! states (civl_condition_laws). So in the program of each layer below the top no thread ever holds a permission of
//! another's, neighbouring steps of movers are exchanged, and their exchange in an interleaving is never a difference
//! (`Checked`).

pub mod laws;
