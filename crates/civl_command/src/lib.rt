//! The program `civl` as one call: from the words of its command line and the bytes of its input to its report and
//! its status.
//!
//! It takes the words of `civl_words`. `check` gives the verdict on every program that breaks no static rule, and `conditions` tells of
//! every such program what is found of each of its conditions; `fmt` prints every program, and `run` replays a schedule of every program
//! that breaks no static rule. `trial` gives the verdict on the text of a trial program. `prove` gives the verdict on a program and, where
//! it is accepted, tells whether an outline of its topmost program shows that it doesn't fail. `proof make`
//! gives a certificate of one condition, and `proof replay` replays one.
//!
//! What may be found stands in specs/ (`Outcome`), what each status says in `Judge` and `Statuses`, and what a call promises in `Promises`.
#![tactic(auto)]

mod admission;
mod certificates;
mod judge;
mod judged;
pub mod laws;
mod proving;
mod replay;
mod report;
mod survey;
mod task;
mod top;
mod trial;
mod verdict;

pub use civl_frontend::Status;
pub use top::command;
