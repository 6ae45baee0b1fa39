// What the static rules say of worked examples.
ghost use Rattle.civl_tree.specs.rules.Broken.{RefusalIsFirst, TypingIsInOrder};
ghost use Rattle.civl_tree.specs.examples.RulesFlag.{FlagPasses};
ghost use Rattle.civl_tree.specs.examples.RulesUnit.{UnitPasses};
ghost use Rattle.civl_tree.specs.examples.RulesSorts.{SortsOfLeaves, SortsOfTwo, SortsOfForms};
ghost use Rattle.civl_tree.specs.examples.RulesTwice.{RefusesTwice};
ghost use Rattle.civl_tree.specs.examples.RulesUnknown.{UnknownInActions, UnknownInBodies, UnknownCallees};
ghost use Rattle.civl_tree.specs.examples.RulesCount.{CountsInHeader, CountsOfItems, CountsOfThreads, CountsOfNames, CountsOfCuts};
ghost use Rattle.civl_tree.specs.examples.RulesWidth.{WidthsOfGlobals, WidthsOfNames, WidthsOfExpressions};
ghost use Rattle.civl_tree.specs.examples.RulesSorted.{SortedInActions, SortedInBodies, SortedInCalls};
ghost use Rattle.civl_tree.specs.examples.RulesIndex.{RefusesIndex};
ghost use Rattle.civl_tree.specs.examples.RulesArity.{RefusesArity, SignaturesDiffer};
ghost use Rattle.civl_tree.specs.examples.RulesSize.{RefusesSize};
ghost use Rattle.civl_tree.specs.examples.RulesOrder.{FirstOfAll, AllPlaces};

/// The sorts of names, literals and the operations with one operand.
pub fn sorts_of_leaves()
    ensures { SortsOfLeaves }
{}

/// The sorts of the operations with two operands.
pub fn sorts_of_two()
    ensures { SortsOfTwo }
{}

/// The sorts of the other forms of expression.
pub fn sorts_of_forms()
    ensures { SortsOfForms }
{}

/// The program with a flag keeps all rules from E10 to E24.
pub fn flag_passes()
    ensures { FlagPasses }
{}

/// So does the program with one of everything.
pub fn unit_passes()
    ensures { UnitPasses }
{}

/// E10: names that stand for two things.
pub fn refuses_twice()
    ensures { RefusesTwice }
{}

/// E11: names that the items before the procedures may use, and may not.
pub fn unknown_in_actions()
    ensures { UnknownInActions }
{}

/// E11: names that statements may use, and may not.
pub fn unknown_in_bodies()
    ensures { UnknownInBodies }
{}

/// E11: callees, results, refined actions and threads.
pub fn unknown_callees()
    ensures { UnknownCallees }
{}

/// E12: the three numbers of the header.
pub fn counts_in_header()
    ensures { CountsInHeader }
{}

/// E12: the items of each kind.
pub fn counts_of_items()
    ensures { CountsOfItems }
{}

/// E12: the threads of the program with a flag.
pub fn counts_of_threads()
    ensures { CountsOfThreads }
{}

/// E12: the names of an action or a procedure.
pub fn counts_of_names()
    ensures { CountsOfNames }
{}

/// E12: the cut points of all procedures.
pub fn counts_of_cuts()
    ensures { CountsOfCuts }
{}

/// E20: the sorts of globals.
pub fn widths_of_globals()
    ensures { WidthsOfGlobals }
{}

/// E20: the sorts of parameters, outputs, choices and locals.
pub fn widths_of_names()
    ensures { WidthsOfNames }
{}

/// E20: literals, slices, widenings and joins.
pub fn widths_of_expressions()
    ensures { WidthsOfExpressions }
{}

/// E21: the expressions of the items before the procedures.
pub fn sorted_in_actions()
    ensures { SortedInActions }
{}

/// E21: the expressions of statements.
pub fn sorted_in_bodies()
    ensures { SortedInBodies }
{}

/// E21 and E23: arguments and results.
pub fn sorted_in_calls()
    ensures { SortedInCalls }
{}

/// E22: rows with an index out of range.
pub fn refuses_index()
    ensures { RefusesIndex }
{}

/// E23: arguments, results, outputs and threads.
pub fn refuses_arity()
    ensures { RefusesArity }
{}

/// E24: the bits of the globals.
pub fn refuses_size()
    ensures { RefusesSize }
{}

/// E34: the parameters and outputs of a procedure and of its action.
pub fn signatures_differ()
    ensures { SignaturesDiffer }
{}

/// The order of codes, items and statements.
pub fn first_of_all()
    ensures { FirstOfAll }
{}

/// The places of one rule in a body, in text order.
pub fn all_places()
    ensures { AllPlaces }
{}

/// Where the codes of rules rise and each tells statements in their order, all places at which a program breaks them are
/// listed by code, item and statement, and `refusal_by` is nothing where none is broken, else the first that is.
pub fn refusal_is_first()
    ensures { RefusalIsFirst }
{}

/// So it is of the rules from E10 to E24.
pub fn typing_is_in_order()
    ensures { TypingIsInOrder }
{}
