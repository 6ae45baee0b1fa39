//! Failing interleavings of the lowest program become failing ones of the topmost program.
//!
//! Layer by layer, a failing interleaving of the program of a layer is turned into a block run, which the program of the next
//! layer follows ([`lift`]): reduction (Lipton, 1975) and refinement by blocks (Hawblitzel, Petrank, Qadeer, Tasiran, CAV 2015;
//! Kragl, Qadeer, CAV 2018), made on the moves themselves. A block that the moves leave unfinished is completed by steps of its
//! thread; where these don't end it, that is the answer.
//!
//! What comes of the moves stands in specs/ (`Lifted`).
#![tactic(auto)]

mod lifted;
mod lifting;

pub use lifted::Lifted;
pub use lifting::lift;
