// What is found of an outline.

use civl_bits::Value;
use civl_cnf::Log;
use civl_goals::Goal;
use civl_tree::List;

/// What is found of an outline, under a budget of learned clauses for each goal.
#[derive(Drop)]
pub enum Proved {
    /// All goals hold, and so many they are.
    All(usize),
    /// The goals before this one hold, and these values of its variables, in their order, violate it.
    Fails(Goal, List<Value>),
    /// The goals before this one hold, and its search learned as many clauses as were allowed; here they are.
    Undecided(Goal, Log),
}
