// Laws of the definitions, each the contract of a function that does nothing.
ghost use Rattle.civl_history.specs.Laws.{EachIsTold, AsManyAsMade, StatementsStand, FailingStandsThere, ChangesLead, ChangesDiffer};
ghost use Rattle.civl_history.specs.examples.Flag.{LowFlag, TopFlag, OtherThread, NoMoves, Spawning};
ghost use Rattle.civl_history.specs.examples.Increments.{LowBegins, LowGoesOn, LowEnds, Top};
ghost use Rattle.civl_history.specs.examples.Steps.{OutputReturned, ActionSwaps, AroundALoop};

/// Each entry is told of its move, from the configuration to which the moves before it run, and as many are told as are made.
pub fn moves_are_told()
    ensures each { EachIsTold }
    ensures many { AsManyAsMade }
{
    civl_bits::laws::equality();
}

/// Where a thread stands before a statement, its procedure has one with that number.
pub fn statements_stand()
    ensures { StatementsStand }
{}

/// A thread that fails stands before the call or the assert that fails.
pub fn failing_stands_there()
    ensures { FailingStandsThere }
{}

/// The changes lead from the one list of values to the other, and each is one.
pub fn changes_tell()
    ensures lead { ChangesLead }
    ensures differ { ChangesDiffer }
{
    civl_bits::laws::equality();
}

/// A flag that is set.
pub fn flag()
    ensures low { LowFlag }
    ensures top { TopFlag }
    ensures other { OtherThread }
    ensures none { NoMoves }
    ensures spawning { Spawning }
{}

/// Increments without a lock.
pub fn increments()
    ensures begins { LowBegins }
    ensures goes_on { LowGoesOn }
    ensures ends { LowEnds }
    ensures top { Top }
{}

/// Single moves, and a loop.
pub fn steps()
    ensures returned { OutputReturned }
    ensures acted { ActionSwaps }
    ensures around { AroundALoop }
{}
