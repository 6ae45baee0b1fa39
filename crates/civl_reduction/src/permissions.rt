//! Linear permissions stay apart in every run of a layer's program.
//!
//! A thread owns the values of the linear locals that it holds: in its topmost frame those that are held at its place, in a
//! frame that waits in a call those that it didn't hand over, and before its first step its linear arguments (`Owned`). A
//! configuration is parted where no permission is carried twice by what all threads own and the linear globals. The
//! theorems are [`laws`]: where the rules on linear locals are kept, and each action hands out no more permissions than it
//! takes in, every configuration that is reached from an initial store is parted (`Stay`; linear permissions: Kragl and
//! Qadeer, Layered concurrent programs, CAV 2018).

pub mod laws;
