//! Laws of the definitions, each the contract of a function that does nothing.
ghost use Rattle.civl_command.specs.Laws.{EachInputIsAnswered, EachInputIsAnsweredOnce, EachPromiseFollows};

/// For each task each input calls for an outcome, and for one alone: the status and the report are settled, but for what a search leaves
/// open, for the values that violate a condition, of which any that do may be told, and for the clauses and the log of a certificate.
pub fn each_input_has_one_answer()
    ensures some { EachInputIsAnswered }
    ensures one { EachInputIsAnsweredOnce }
{}

/// What a call promises as one value is promised of its words, its streams and its status, one by one.
pub fn each_promise_follows()
    ensures { EachPromiseFollows }
{}
