//! Laws of the table. Each function computes nothing; its clauses are theorems.
ghost use Rattle.civl_terms.specs.foldings.Laws.{TwosKeepValues, OnesKeepValues, PicksKeepValues, GetsKeepValues, SetsKeepValues, OthersKeepValues};

/// Where an operation is folded, the folding has its value.
pub fn foldings_keep_values()
    ensures twos { TwosKeepValues }
    ensures ones { OnesKeepValues }
    ensures picks { PicksKeepValues }
    ensures gets { GetsKeepValues }
    ensures sets { SetsKeepValues }
    ensures others { OthersKeepValues }
{}
