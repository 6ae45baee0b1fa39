// What an outline has to show.

/// A goal of an outline. The numbers are those of a thread, an action, or a procedure and a statement of it.
#[derive(Clone, Copy, Debug, PartialEq, Eq)]
pub enum Goal {
    /// Initial stores meet the invariant.
    Invariant,
    /// A declared thread's procedure may begin: its first note holds.
    Thread(u32),
    /// An action of the top layer alone keeps permissions apart and makes none.
    Linear(u32),
    /// A call's gate, or what an assert says, is true.
    Safe(u32, u32),
    /// A call that fires keeps the invariant.
    Keep(u32, u32),
    /// A spawned procedure may begin: its first note holds.
    Spawn(u32, u32),
    /// The note at the place that is reached holds.
    Next(u32, u32),
    /// A call that fires keeps the note before a statement of any root, of another thread: the last two numbers.
    Other(u32, u32, u32, u32),
}
