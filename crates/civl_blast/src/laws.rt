//! Laws of clauses that stand for a term. Each function computes nothing; its clauses are theorems.
ghost use Rattle.civl_blast.specs.Laws.{BitsGiveValues, PlacesDecide, SatisfiableWhereTrue};

/// The clauses are satisfiable exactly where some values make the term true, and bits that make them true give such values. Values that agree on the cells with places give the term one truth value.
pub fn satisfiability()
    ensures values { BitsGiveValues }
    ensures places { PlacesDecide }
    ensures exact { SatisfiableWhereTrue }
{}
