// Laws of the trial program, each the contract of a function that does nothing.
ghost use Rattle.civl_trial.specs.Laws.{CopiesAreSpelled, OneCopyIsSpelled, DeclarationsAreCounted, TrialsHaveSpelling, TrialTokensMayStand, TrialsAreNumbered};

/// Section by section a copy is spelled as a spinlock and a counter, with its number behind the names.
pub fn copies_are_spelled()
    ensures { CopiesAreSpelled }
{}

/// The trial program of one copy has a spelling, and it is this list of tokens.
pub fn one_copy_is_spelled()
    ensures { OneCopyIsSpelled }
{}

/// How many declarations of each kind a trial program has.
pub fn declarations_are_counted()
    ensures { DeclarationsAreCounted }
{}

/// Each trial program has a spelling.
pub fn trials_have_spelling()
    ensures { TrialsHaveSpelling }
{}

/// Each of its tokens may stand in a text, also in the program that is printed for it.
pub fn trial_tokens_may_stand()
    ensures { TrialTokensMayStand }
{}

/// Its items and statements have numbers of 32 bits.
pub fn trials_are_numbered()
    ensures { TrialsAreNumbered }
{}
