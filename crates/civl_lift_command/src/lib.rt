//! The program `civl_lift` as one call: from the words of its command line and the bytes of its input to its report and its status.
//!
//! The input is a script: a program, a store and moves. Where the program is accepted, and the moves run in its lowest program from the
//! store, which is initial, to a failing configuration, they are lifted to moves of its topmost program that do so there
//! ([`lift_command`], over `lift` of `civl_lifting`).
//!
//! What may be found stands in specs/ (`Outcome`, `Lifting`), what each status says in `Judge` and `Statuses`, and what a call promises in
//! `Promises`.
#![tactic(auto)]

mod judge;
mod judged;
pub mod laws;
mod report;
mod schedule;
mod script;
mod top;
mod words;

pub use civl_frontend::Status;
pub use top::lift_command;
