// Laws of the definitions, each the contract of a function that does nothing.
ghost use Rattle.civl_parser.specs.Parsing.{OneSpelling, OneScriptSpelling, ParsesRaised};

/// No two programs have one spelling.
pub fn one_spelling()
    ensures { OneSpelling }
{}

/// No two scripts have one spelling.
pub fn one_script_spelling()
    ensures { OneScriptSpelling }
{}

/// A program that is parsed is parsed again from the tokens of its canonical text, with version 2 where it has version 1.
pub fn parses_raised()
    ensures { ParsesRaised }
{}
