// Laws of verdicts, each the contract of a function that does nothing.
ghost use Rattle.civl_verdicts.specs.judgements.Laws.{EachProgramHasAVerdict, VerdictsOnOneAgree};

/// Under each budget there is a verdict on a program that keeps the rules E10 to E24.
pub fn each_program_has_a_verdict()
    ensures { EachProgramHasAVerdict }
{}

/// Two verdicts on one program don't speak against each other.
pub fn verdicts_on_one_agree()
    ensures { VerdictsOnOneAgree }
{}
