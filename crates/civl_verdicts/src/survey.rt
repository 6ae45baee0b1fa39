// What is found of all conditions of a layered program.

use crate::verdict::Counter;
use civl_cnf::Log;
use civl_tree::List;

/// What is found of a condition.
#[derive(Drop)]
pub enum Found {
    /// It holds.
    Holds,
    /// These values violate it.
    Fails(Counter),
    /// The search that decides it learned as many clauses as were allowed; here they are.
    Undecided(Log),
}

/// What is found of a layered program.
#[derive(Drop)]
pub enum Survey {
    /// No store is initial.
    NoInitial,
    /// Some store is initial, or the search for one learned as many clauses as were allowed, which are the log; and for each
    /// condition of the list, in its order, what is found of it.
    Findings(Option<Log>, List<Found>),
}
