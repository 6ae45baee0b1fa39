// Laws of the definitions, each the contract of a function that does nothing.
ghost use Rattle.civl_printer.specs.Laws.{CanonicalTokens, ReadsBack, ReadsBackFromText};

/// Tokens that may stand in a text are those of their canonical text.
pub fn canonical_tokens()
    ensures { CanonicalTokens }
{}

/// The canonical text of a program that has a spelling spells the program, with version 2 where it has version 1.
pub fn reads_back()
    ensures { ReadsBack }
{}

/// The canonical text of what a text spells spells it again.
pub fn reads_back_from_text()
    ensures { ReadsBackFromText }
{}
