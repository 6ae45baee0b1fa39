// What a replay finds.

/// What the replay of a log finds.
#[derive(Clone, Copy, Debug, PartialEq, Eq)]
pub enum Replay {
    /// Each clause has reverse unit propagation, and one is empty.
    Refutes,
    /// The clause at this place, from 0, is the first without reverse unit propagation.
    NotRup(usize),
    /// Each clause has reverse unit propagation, and none is empty.
    NoEmpty,
}
