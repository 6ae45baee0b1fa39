// Laws of the definitions, each the contract of a function that does nothing.
ghost use Rattle.civl_lex.specs.Laws.{OneAnswer, SomeAnswer, OneStart, SpacedTokens, Examples, FlagHasTokens};

/// A text has one list of tokens at most, or one first place without a token, and never both.
pub fn one_answer()
    ensures { OneAnswer }
{}

/// Each text has its tokens, or a first place without one.
pub fn some_answer()
    ensures { SomeAnswer }
{}

/// A token of a text begins at one place.
pub fn one_start()
    ensures { OneStart }
{}

/// Tokens with a blank behind each are read again.
pub fn spaced_tokens()
    ensures { SpacedTokens }
{}

/// What some short texts are.
pub fn examples()
    ensures { Examples }
{}

/// The text of the flag program has the tokens that spell it.
pub fn flag_has_its_tokens()
    ensures { FlagHasTokens }
{}
