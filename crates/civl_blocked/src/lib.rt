//! Block runs from failing interleavings.
//!
//! An interleaving of a layer's program that ends failing is turned into a run block by block ([`block_run`]): no thread steps
//! inside a block of another, and the end fails or is challenged.
//!
//! As many moves as possible are arranged at once, in the order of the blocks' turns, and run: where they lead to the same end,
//! nothing more is to be shown of them. So the time grows with the moves, whatever stands between those of one block. Where they
//! lead elsewhere half as many are tried, and where there is no whole block the run goes on by one. The moves up to the next turn
//! of a block are gathered at the front of the early steps before it, and those from the turn to the block's end at the front of
//! what follows; where they don't lead to the same end, something fails sooner, without a move of another thread, and the run
//! becomes shorter. That one of the two is so are the laws of civl_reduction::gathered. A block that the moves leave unfinished is completed
//! by steps of its thread alone, with offered choices.
#![tactic(auto)]

mod arranging;
mod blocked;
mod completing;
mod copying;
mod gathering;
mod ground;
mod joining;
mod leading;
mod offering;
mod pacing;
mod place;
mod running;
mod segment;
mod shortening;
mod stepping;
mod turning;
mod walking;

pub use blocked::Blocked;
pub use running::block_run;
