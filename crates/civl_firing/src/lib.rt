//! What expressions and actions mean: the value of an expression in a scope, and what an action does in a store.
//!
//! The definitions stand in specs/, for both versions of the language: the value of an expression (`Eval`) where names
//! stand for values (`Scope`), the scopes at the places of a program (`Scope`), stores (`Stores`), and gated atomic
//! actions (`Fired`): a gate, and a guard with updates that are made all at once. An expression whose sorts fit has a
//! value of its sort (`Sorts`). On names of bools, `true`, `false`, `!`, `&&` and `||` the value is a truth (`Truth`,
//! `Agreement`), which has a table over all stores of bools (`Table`). [`laws`] has theorems about the definitions, and
//! worked examples.
//!
//! Code does what they say: it gives the value of an expression ([`evaluate`]), fires an action ([`fire`]), tests its gate
//! at a call ([`gate_of_call`]), and gives the values of an expression of bools in all stores ([`truth_table`]).
//!
//! The other modules are for the crates that stand on this one: the declarations in a scope and the places of their names
//! ([`names`]), what the names stand for without a list of values ([`setting`]), expressions there ([`expressions`]), the
//! parts of an action ([`firing`]), and zeros ([`sorts`]).
#![tactic(auto)]

mod asking;
pub mod expressions;
pub mod firing;
pub mod laws;
pub mod names;
mod scope;
pub mod setting;
pub mod sorts;
mod store;
mod table;
mod truth;
pub mod values;

pub use asking::gate_of_call;
pub use expressions::evaluate;
pub use firing::{Fired, fire};
pub use scope::Scope;
pub use store::Store;
pub use table::{each_store_is_numbered, truth_table};
pub use truth::place;
