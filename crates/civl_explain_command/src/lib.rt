//! The command `civl_explain`: what `civl` finds of an input, with the story of what goes wrong.
//!
//! [`explain_command`] does what its words ask. The report is that of `civl_command`, and beside it stand places, lines of the source and
//! stories: the definitions are in specs/ (`Told`, over `Stories`, `Refusals` and `Runs`), and [`laws`] ties them to `civl`'s own.
#![tactic(auto)]

mod admission;
mod check;
mod condition;
mod conditions;
mod judge;
mod judged;
pub mod laws;
mod manner;
mod moves;
mod prove;
mod run;
mod running;
mod top;

pub use top::explain_command;
