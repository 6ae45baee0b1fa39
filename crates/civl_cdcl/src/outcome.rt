// What a search answers.
use civl_cnf::{Bits, Log};

/// What a search answers.
#[derive(Drop)]
pub enum Outcome {
    /// These bits, one for each variable, make the clause set true.
    Sat(Bits),
    /// This log refutes the clause set. Its last clause is the empty one.
    Unsat(Log),
    /// These are as many learned clauses as were allowed, and one more can be learned.
    Spent(Log),
}
