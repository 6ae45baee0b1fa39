//! Worked examples of the definitions. The function computes nothing; its clause is a theorem.
ghost use Rattle.civl_symbolic.specs.examples.Symbolic.{Examples};

/// The values of a word and of a bool under an assignment, and a value that bits show.
pub fn examples()
    ensures { Examples }
{}
