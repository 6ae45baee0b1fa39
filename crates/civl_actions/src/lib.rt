//! The terms of expressions and of actions.
//!
//! An expression whose names stand for terms ([`Scope`]) has a term with its value, its sort and at most its weight
//! ([`term`]). An action has terms at given terms for the globals, its parameters and its choices, each part by itself and at
//! the weight of that part alone: its gate ([`gate`]), its guard ([`guard`]), the values that are offered for its choices
//! ([`offers`]), and the globals and the outputs after its updates, which are all made at once ([`updates`]); and gate, guard
//! and updates together ([`instance`]). The definitions stand in specs/ (`Scopes`, `Actions`); the values are those of
//! `civl_firing`. What is said of a term stays true while the graph grows (proofs/Staying).
#![tactic(auto)]

mod actions;
mod expressions;
mod made;
mod named;
mod parts;
mod scope;

pub use actions::{gate, guard, instance, offers, updates};
pub use expressions::term;
pub use made::{Changed, Instance};
pub use scope::Scope;
