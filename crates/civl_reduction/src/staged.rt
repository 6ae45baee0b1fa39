//! Interleavings of a checked program reduce to runs block by block.
//!
//! In a program that keeps the rules and all of whose conditions hold, the steps of a block of a procedure are right movers up
//! to its turn and left movers behind it, by the rule on phases; so the program of the layer below is reducible, in the sense
//! of civl_reduction::interleavings. The theorem (`Reduction`) has two premises on blocks that stand together behind a block run: that
//! their threads don't fail, and that their steps come to an end.
//!
//! Both follow from what holds beside block runs that aren't challenged. Where no block is open, all is calm: the invariants of
//! the step hold, and so do those of the yields at which frames stand (`Calm`), in the store with the shadow's values; a frame
//! stands there at a cut of its procedure, and what is held at this cut its thread owns (`Pausing`). Where one thread's block
//! is open, its frame follows a path, and the other threads were calm at the block's beginning (`Opened`); a step from a yield
//! opens the block of the last of the blocks without a step that take effect just before it (`Chains`, `Stops`). So no thread
//! fails inside a block (`Inside`). And each step of an open block makes a number smaller (`Measures`), so that its steps come
//! to an end (`Bounded`). What comes of it all is the reduction without premises (`Reduced`). [`laws`] has the theorems.

pub mod laws;
