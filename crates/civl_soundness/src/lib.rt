//! Type soundness of plain programs, after Wright and Felleisen (A Syntactic Approach to Type Soundness, 1994).
//!
//! A configuration is of a plain program where its store, its threads and their frames have the shape and the sorts that
//! the program declares (`IsOf` of civl_meaning). The program starts with such a configuration. Here stands that each step
//! of it gives such a one again, and so does a run (preservation); and that in such a one the answer of a step has its
//! cause, so that a thread is blocked by a guard alone (progress). On the way: each expression of an action has a value of
//! the sort that its place needs, and its updates keep the sorts of the store. The definitions stand in specs/ (`Config`,
//! `Stepped`, `Scope`, `Fired`); the theorems are [`laws`].
#![tactic(auto)]

pub mod laws;
