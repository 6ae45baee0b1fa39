// Laws of the definitions, each the contract of a function that does nothing.
ghost use Rattle.civl_places.specs.Laws.{InOrder, OneOffset, ByteIsInLine, ItemsBegin, StatementsBegin, ExitsStand, NoneBehindExit, StartsRise, FormulasStand};
ghost use Rattle.civl_places.specs.examples.Lines.{LineExamples};
ghost use Rattle.civl_places.specs.examples.Starts.{StartExamples};
ghost use Rattle.civl_places.specs.examples.Formulas.{FormulaExamples};

/// Of two places of a text the earlier one has the earlier position.
pub fn positions_are_in_order()
    ensures { InOrder }
{}

/// No two places of a text have the same position.
pub fn one_offset()
    ensures { OneOffset }
{}

/// In its line a byte stands at its column.
pub fn byte_is_in_line()
    ensures { ByteIsInLine }
{}

/// Worked texts.
pub fn line_examples()
    ensures { LineExamples }
{}

/// At the token of an item its spelling begins.
pub fn items_begin()
    ensures { ItemsBegin }
{}

/// At the token of a statement its spelling begins.
pub fn statements_begin()
    ensures { StatementsBegin }
{}

/// At the token of an exit the brace stands that closes its procedure.
pub fn exits_stand()
    ensures { ExitsStand }
{}

/// No number behind that of the exit has a token.
pub fn none_behind_exit()
    ensures { NoneBehindExit }
{}

/// Statements begin in the order of their numbers.
pub fn starts_rise()
    ensures { StartsRise }
{}

/// Worked programs.
pub fn start_examples()
    ensures { StartExamples }
{}

/// At the token of an expression its spelling begins.
pub fn formulas_stand()
    ensures { FormulasStand }
{}

/// Worked programs, with the tokens of their expressions.
pub fn formula_examples()
    ensures { FormulaExamples }
{}
