// Laws of the definitions, each the contract of a function that does nothing.
ghost use Rattle.civl_script.specs.Laws.{OneValue, OneSchedule, SchedulesExist, TextsAreNumbered, ScriptsAreNumbered, ScriptsAreCounted};
ghost use Rattle.civl_script.specs.examples.Entries.{Written, Said};

/// An entry writes at most one value.
pub fn one_value()
    ensures { OneValue }
{}

/// A script says one schedule: the store and the moves, or the number of what first doesn't fit.
pub fn one_schedule()
    ensures most { OneSchedule }
    ensures some { SchedulesExist }
{}

/// What some entries write.
pub fn entries_written()
    ensures { Written }
{}

/// What some scripts say.
pub fn scripts_said()
    ensures { Said }
{}

/// What a text of at most 1,048,576 bytes spells has numbers of 32 bits, and a script no more items and moves than its text
/// has bytes.
pub fn numbered()
    ensures programs { TextsAreNumbered }
    ensures scripts { ScriptsAreNumbered }
    ensures counted { ScriptsAreCounted }
{}
