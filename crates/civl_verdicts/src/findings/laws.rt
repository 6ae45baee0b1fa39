// Laws of surveys, each the contract of a function that does nothing.
ghost use Rattle.civl_verdicts.specs.findings.Laws.{VariablesHaveSorts, EachProgramHasASurvey, SurveysOfOneAgree};

/// The variables of a condition have sorts within the limits of the language, where the program keeps the rules E10 to E24.
pub fn variables_have_sorts()
    ensures { VariablesHaveSorts }
{}

/// Under each budget a program that keeps the rules E10 to E24 has a survey.
pub fn each_program_has_a_survey()
    ensures { EachProgramHasASurvey }
{}

/// Two surveys of one program don't speak against each other.
pub fn surveys_of_one_agree()
    ensures { SurveysOfOneAgree }
{}
