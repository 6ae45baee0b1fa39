// Verdicts on layered programs.

use civl_bits::Value;
use civl_cnf::Log;
use civl_conditions::Condition;
use civl_tree::List;

/// Values that violate a condition: one for each of its variables, in their order.
#[derive(Drop)]
pub struct Counter {
    pub condition: Condition,
    pub values: List<Value>,
}

/// A verdict on a layered program.
#[derive(Drop)]
pub enum Verdict {
    /// All conditions hold, so many of them.
    Accepted(usize),
    /// The first condition that doesn't hold, with values that violate it.
    Rejected(Counter),
    /// The search for an initial store, or the one that decides this condition, learned as many clauses as were allowed;
    /// here they are.
    Undecided(Option<Condition>, Log),
    /// No store is initial.
    NoInitial,
}
