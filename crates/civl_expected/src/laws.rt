// Laws of the definitions, each the contract of a function that does nothing.
ghost use Rattle.civl_expected.specs.Laws.{OneList, ExactlyThose, ThoseThatPass, FaultIsUnexpected};
ghost use Rattle.civl_expected.specs.examples.Places.{PlaceExamples};

/// What is listed is determined.
pub fn one_list()
    ensures { OneList }
{}

/// What is listed may stand there, and what may stand there is listed.
pub fn exactly_those()
    ensures { ExactlyThose }
{}

/// Where a test tells of which tokens it holds, what is listed is what passes.
pub fn those_that_pass()
    ensures { ThoseThatPass }
{}

/// The token at which reading goes wrong isn't expected there, and where it goes wrong at the end, the text may not end.
pub fn fault_is_unexpected<T>()
    ensures { FaultIsUnexpected T }
{}

/// What may stand at places of a small program.
pub fn place_examples()
    ensures { PlaceExamples }
{}
