// Laws of the definitions, each the contract of a function that does nothing.
ghost use Rattle.civl_reasons.specs.Laws.{PartsTellTruth, PartsAreReasons, PartsStand, PartsAreApart, ImpliedParts, ReadNamesSuffice, ReadNamesDiffer, ReadNamesAreAll};
ghost use Rattle.civl_reasons.specs.examples.Reasons.{ReasonExamples, ReadExamples};

/// A formula has a part exactly where it isn't true.
pub fn parts_tell_truth()
    ensures { PartsTellTruth }
{}

/// Each part isn't true, and is no `&&`, `||` or `=>`.
pub fn parts_are_reasons()
    ensures { PartsAreReasons }
{}

/// The spelling of a part stands in that of the formula at its token.
pub fn parts_stand()
    ensures { PartsStand }
{}

/// Parts stand in the order of the text, and none within another.
pub fn parts_are_apart()
    ensures { PartsAreApart }
{}

/// In a false `a => b` of bools `a` is true, and the parts are those of `b`.
pub fn implied_parts()
    ensures { ImpliedParts }
{}

/// The values of the names that an expression reads, of `done` and of `old(done)` give its value.
pub fn read_names_suffice()
    ensures { ReadNamesSuffice }
{}

/// No reading is told twice.
pub fn read_names_differ()
    ensures { ReadNamesDiffer }
{}

/// A reading is told exactly where it stands in the expression.
pub fn read_names_are_all()
    ensures { ReadNamesAreAll }
{}

/// Worked formulas, with the parts that aren't true.
pub fn reason_examples()
    ensures { ReasonExamples }
{}

/// Worked formulas, with the names that they read.
pub fn read_examples()
    ensures { ReadExamples }
{}
