//! Block runs of a layered program, and what stands beside them.
//!
//! A block of a procedure goes from its entry, a yield or a yield loop to the next of these, or to the exit. A thread stands
//! inside one, in the program of the layer below the procedure's, behind its first step and before its last (`Blocks`). In
//! there it stands early, where a call of a right or atomic action may come before the block's end, and late, where none does
//! (`Stands`): the reduction of civl_reduction::interleavings goes by this (`Reduces`).
//!
//! In a block run of a layer's program no thread steps inside a block of another. Beside it goes a shadow (`Shadow`): the
//! values of the globals that the next layer introduces, as the intros set them, and of each thread in a procedure of the next
//! layer whether it has passed its commit. A block run is challenged (`Challenged`) where the gate of a refined action is false
//! before the call of its procedure, or at the beginning of a block before the commit.
//!
//! The conditions of a step speak of the configuration's store with the shadow's values. Actions of the layer do in it what
//! they do in the configuration (`Merged`). The invariants of a step hold in initial stores; an action that is in both
//! programs of the step, and a block of one of its procedures, keep them, and keep the invariant of each yield at which a frame
//! of another thread stands (`Steady`: the interference freedom of Owicki and Gries, 1976). [`laws`] has the theorems, and
//! worked examples.

pub mod laws;
