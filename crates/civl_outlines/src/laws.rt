// Laws of the definitions, each the contract of a function that does nothing.
ghost use Rattle.civl_outlines.specs.Reading.{OneOutlineSpelling};

/// No two outlines have one spelling.
pub fn one_outline_spelling()
    ensures { OneOutlineSpelling }
{}
