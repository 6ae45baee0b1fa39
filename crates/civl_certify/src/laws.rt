// Laws of the definitions, each the contract of a function that does nothing.
ghost use Rattle.civl_certify.specs.Laws.{AnswersOnOneAgree};

/// Two answers on one condition of one program say nothing against each other.
pub fn answers_on_one_agree()
    ensures { AnswersOnOneAgree }
{}
