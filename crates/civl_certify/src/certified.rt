// What is shown of a condition.

use civl_cnf::{Cnf, Log};
use civl_verdicts::Counter;

/// What is shown of a condition.
#[derive(Drop)]
pub enum Shown {
    /// It holds: the log refutes the clause set, which stands for its violation.
    Holds(Cnf, Log),
    /// These values violate it.
    Fails(Counter),
    /// The search for values that violate it learned as many clauses as were allowed; here they are.
    Undecided(Log),
}

/// What is shown of a layered program and one of its conditions.
#[derive(Drop)]
pub enum Certified {
    /// No store is initial.
    NoInitial,
    /// Some store is initial, or the search for one learned as many clauses as were allowed, which are the log; and this is shown of
    /// the condition.
    Answer(Option<Log>, Shown),
}
