//! Laws of the definitions. Each function computes nothing; its clauses are theorems.
ghost use Rattle.civl_firing.specs.values.Values.{ZerosHaveTheirSorts};

/// The zero of a sort has that sort.
pub fn zeros_have_their_sorts()
    ensures { ZerosHaveTheirSorts }
{}
