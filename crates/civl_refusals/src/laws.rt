//! Laws of the definitions, each the contract of a function that does nothing.
ghost use Rattle.civl_refusals.specs.examples.Carets.{CaretExamples};
ghost use Rattle.civl_refusals.specs.examples.Scripts.{ScriptExamples};
ghost use Rattle.civl_refusals.specs.Laws.{EntriesStand, MovesStand};

/// At the token of an entry its spelling begins.
pub fn entries_stand()
    ensures { EntriesStand }
{}

/// At the token of a move its spelling begins.
pub fn moves_stand()
    ensures { MovesStand }
{}

/// A worked script.
pub fn script_examples()
    ensures { ScriptExamples }
{}

/// A caret under a place behind a tab.
pub fn caret_examples()
    ensures { CaretExamples }
{}
