// Laws of the definitions, each the contract of a function that does nothing.
ghost use Rattle.civl_phrases.specs.Laws.{AnswersRight, AnswersOnlyRight, OneSpelling, ListUnfolds, CountedAlike, Examples};

/// A reader of whole texts answers what is right, and nothing else is right; and no two values have one spelling.
pub fn exact<T>()
    ensures right { AnswersRight T }
    ensures only { AnswersOnlyRight T }
    ensures one { OneSpelling T }
{}

/// A list is read by its first element and its rest.
pub fn lists<T>()
    ensures { ListUnfolds T }
{}

/// Brackets are counted alike by readers and by the contracts of whole texts.
pub fn brackets()
    ensures { CountedAlike }
{}

/// What is read from some short lists of tokens.
pub fn examples()
    ensures { Examples }
{}
