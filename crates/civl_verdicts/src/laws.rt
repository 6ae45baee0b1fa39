// Laws of verdicts, each the contract of a function that does nothing.
ghost use Rattle.civl_verdicts.specs.Verdicts.{AcceptedExcludesOthers, OneCondition};

/// Where a program is accepted it is neither rejected nor without initial stores; and it has one number of conditions.
pub fn accepted_excludes_others()
    ensures { AcceptedExcludesOthers }
{}

/// Two rejections name the same condition.
pub fn one_condition()
    ensures { OneCondition }
{}
