// Laws on examples. Each function does nothing, and its contract is the law.
ghost use Rattle.civl_provers.specs.Laws.{TriesInOrder, SquareWantsOneChoice};

/// Which of several tries a probe answers.
pub fn tries_in_order()
    ensures { TriesInOrder }
{}

/// How many choices settle all four clauses over two variables.
pub fn square_wants_one_choice()
    ensures { SquareWantsOneChoice }
{}
