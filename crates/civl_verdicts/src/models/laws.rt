// Laws of the definitions, each the contract of a function that does nothing.
ghost use Rattle.civl_verdicts.specs.examples.Texts.{Texts};

/// The texts of some values.
pub fn texts()
    ensures { Texts }
{}
