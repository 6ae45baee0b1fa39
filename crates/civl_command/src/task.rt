// What is asked of an input.

/// What is to be found of an input.
#[derive(Clone, Copy)]
pub(crate) enum Task {
    /// The verdict on a program, where each search may learn so many clauses.
    Check(u32),
    /// What is found of each of its conditions, where each search may learn so many clauses.
    Conditions(u32),
    /// Its canonical text.
    Fmt,
    /// The schedule of a script on its lowest program.
    RunLow,
    /// The schedule of a script on its topmost program.
    RunTop,
    /// What an outline proves of its program, where each search may learn so many clauses.
    Prove(u32),
    /// What is shown of the condition of a program with this number, where each search may learn so many clauses.
    Make(u32, u32),
    /// What the replay of a certificate finds.
    Replay,
}
