// What a prover answers.
use civl_cnf::{Bits, Log};

/// What a prover answers. Nothing is believed of it without a look at the certificate.
#[derive(Drop)]
pub enum Attempt {
    /// This log is to refute the clause set.
    Unsat(Log),
    /// These bits are to make the clause set true.
    Sat(Bits),
    /// It has no answer.
    GaveUp,
    /// Memory was wanting.
    Memory,
}
