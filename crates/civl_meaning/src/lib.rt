//! What programs mean: the steps of plain programs and their interleavings.
//!
//! The definitions stand in specs/, for both versions of the language, over the values of expressions and the actions of
//! [`civl_firing`]: the statements of a plain program by their places (`Places`), what a called name means (`Meaning`),
//! what a step does (`Change`, `Step`), runs (`Run`), failing (`Failing`), the configurations of a program (`Config`), the
//! programs of the layers (`Layers`), permissions and initial stores (`Permissions`, `Initial`), and what a layered program
//! is verified for (`Preserves`). [`laws`] has theorems about them, and worked examples.
//!
//! Code does what they say: it starts a plain program ([`start`]), takes a step of a configuration ([`step`]), finds the
//! first thread that fails ([`failing`]), and gives a thread's frames with the statements that are still to run
//! ([`frame`]). The parts of that are for the crates above too: how many statements there are ([`sizes`]), and what is still
//! to run from a place of a body, each with its number ([`remaining`]). Expressions and actions are here under the names of
//! `civl_firing`, as [`evaluate`], [`fire`] and [`truth_table`].
#![tactic(auto)]

mod change;
mod config;
mod configs;
pub mod copying;
mod faults;
mod filling;
mod found;
mod frame_copy;
mod framing;
pub mod laws;
mod leaving;
mod meant;
mod moving;
pub mod remaining;
mod seeking;
pub mod sizes;
pub mod slices;
mod starting;
mod table;

pub use civl_firing::{
    Fired, Scope, Store, each_store_is_numbered, evaluate, fire, names, place, truth_table,
};
pub use config::{Activation, Config, Move, Plain, Running, State, Stepped};
pub use configs::{copy_config, depth, same, store, threads};
pub use faults::failing;
pub use filling::places_of;
pub use found::skipped;
pub use frame_copy::Frame;
pub use framing::frame;
pub use leaving::outputs;
pub use moving::step;
pub use starting::start;
pub use table::Places;
