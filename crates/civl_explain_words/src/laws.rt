// Laws of words, each the contract of a function that does nothing.
ghost use Rattle.civl_explain_words.specs.Words.{NumbersFit, OneCommand};
ghost use Rattle.civl_explain_words.specs.examples.Lines.{EachCommandHasWords, FlagsAreRead, NumbersAreRead, OthersAreNoCommand};

/// No list of words is that of two commands.
pub fn one_command()
    ensures { OneCommand }
{}

/// The numbers of each command that words call lie where they may.
pub fn numbers_fit()
    ensures { NumbersFit }
{}

/// Each command has its words.
pub fn each_command_has_words()
    ensures { EachCommandHasWords }
{}

/// Numbers in words are read.
pub fn numbers_are_read()
    ensures { NumbersAreRead }
{}

/// Flags in words are read, in either order.
pub fn flags_are_read()
    ensures { FlagsAreRead }
{}

/// Words that are no command.
pub fn others_are_no_command()
    ensures { OthersAreNoCommand }
{}
