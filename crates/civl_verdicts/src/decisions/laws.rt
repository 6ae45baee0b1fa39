// Laws of the definitions, each the contract of a function that does nothing.
ghost use Rattle.civl_verdicts.specs.decisions.Numbered.{EachIsNumbered};
ghost use Rattle.civl_verdicts.specs.decisions.Laws.{HonestFirstStaysOverRounds};

/// Each list of values of some sorts has a number below two to their bits.
pub fn each_is_numbered()
    ensures { EachIsNumbered }
{}

/// Where the first prover of the list is honest, it is still the first behind several rounds, and was asked once in each. `B` stands
/// for the provers.
pub fn honest_first_stays_over_rounds<B>()
    ensures { HonestFirstStaysOverRounds B }
{}
