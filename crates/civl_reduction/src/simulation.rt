//! What acceptance comes to.
//!
//! A program that the grammar can write and that keeps the rules, all of whose conditions hold, is followed layer by layer: the
//! blocks of each layer's procedures stand together, don't fail, end, and are no step of the layer's program or one of the
//! refined action. So the topmost program fails from each initial store from which the lowest does (`Preserved`).
//!
//! A block run of a layer's program has a configuration of the program of the layer above beside it (`Meets`): a thread in a
//! procedure of the upper layer stands there before the call of the refined action, or behind it. Both programs do the same but
//! at calls of such procedures (`Alike`). A block is refined where it changes nothing that the layer's program sees, or does
//! what the refined action does, with the values behind `with` as choices (`Refined`); the conditions on paths say so of each
//! block, and it holds of blocks one behind the other (`Joined`). Where the blocks of a layer are sound (`Sound`), block runs
//! are followed by the program of the layer above (`Followed`). In a checked program they are: behind a block run no thread
//! fails at a yield (`Between`), and what an open block has done since it began is carried along its steps, until it is refined
//! at its end (`Carried`). [`laws`] has the theorems, and worked examples.

pub mod laws;
