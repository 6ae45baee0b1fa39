// Laws of the definitions, each the contract of a function that does nothing.
ghost use Rattle.civl_prove.specs.outline_reports.Laws.{EachOutlineIsAnswered, ProvingsAgree, OnlySafeIsSafe};

/// Under each budget something is found of each program that keeps the rules E10 to E24, and each outline.
pub fn each_outline_is_answered()
    ensures { EachOutlineIsAnswered }
{}

/// What is found of one program and one outline, twice, doesn't speak against itself.
pub fn provings_agree()
    ensures { ProvingsAgree }
{}

/// A report that begins with `safe` is that of an accepted program all of whose goals hold.
pub fn only_safe_is_safe()
    ensures { OnlySafeIsSafe }
{}
