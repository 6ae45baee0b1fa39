// Laws of the outcomes. Each function does nothing, and its contract is the law.
ghost use Rattle.civl_cdcl.specs.Laws.{ModelExcludesRefutation, SpentBudgetIsSmall, HalfHasModels, SquareIsRefuted};

/// No clause set has both bits that make it true and a log that refutes it.
pub fn model_excludes_refutation()
    ensures { ModelExcludesRefutation }
{}

/// A budget of three to the number of variables, or more, is never spent.
pub fn spent_budget_is_small()
    ensures { SpentBudgetIsSmall }
{}

/// Which bits make the clauses `a or b` and `a or not b` true.
pub fn half_has_models()
    ensures { HalfHasModels }
{}

/// Which logs refute all four clauses over two variables, and which budget is spent on them.
pub fn square_is_refuted()
    ensures { SquareIsRefuted }
{}
