//! Laws of the definitions. Each function computes nothing; its clauses are theorems. Those of the modules below are
//! worked examples.
ghost use Rattle.civl_firing.specs.Agreement.{TruthIsValue};
ghost use Rattle.civl_firing.specs.Sorts.{ValuesHaveTheirSorts};

pub mod operators;
pub mod scopes;

/// An expression whose sorts fit has a value of its sort, where the names of its scope have values of theirs.
pub fn values_have_their_sorts()
    ensures { ValuesHaveTheirSorts }
{}

/// On expressions of names, `true`, `false`, `!`, `&&` and `||` the value is the truth.
pub fn truth_is_value()
    ensures { TruthIsValue }
{}
