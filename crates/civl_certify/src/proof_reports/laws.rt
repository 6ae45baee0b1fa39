// Laws of the definitions, each the contract of a function that does nothing.
ghost use Rattle.civl_certify.specs.proof_reports.Laws.{PrintedStandsAlone, RefutedIsUnsatisfiable, MakingsAgree, EachProgramHasAMaking, EachTextHasAReplaying, OneReplaying};

/// What is printed of a condition that holds is a certificate by itself: of a clause set that stands for the condition's violation, and
/// of a lean log; and what is found of it is that the log refutes the clause set.
pub fn printed_stands_alone()
    ensures { PrintedStandsAlone }
{}

/// Where the log of a certificate refutes its clause set, no bits make its clauses true.
pub fn refuted_is_unsatisfiable()
    ensures { RefutedIsUnsatisfiable }
{}

/// What is found of one program and one number, twice, doesn't speak against itself.
pub fn makings_agree()
    ensures { MakingsAgree }
{}

/// Something is found of each program that keeps the rules on names and sorts, by each number and under each budget: the first formula
/// that weighs too much, that no condition has the number, or what is shown of the condition that has it.
pub fn each_program_has_a_making()
    ensures { EachProgramHasAMaking }
{}

/// Something is found of each text: its first fault, or what the replay of its log finds.
pub fn each_text_has_a_replaying()
    ensures { EachTextHasAReplaying }
{}

/// One thing is found of a text.
pub fn one_replaying()
    ensures { OneReplaying }
{}
