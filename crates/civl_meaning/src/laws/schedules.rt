//! Schedules of worked programs.
ghost use Rattle.civl_meaning.specs.examples.Increments.{LowScheduleRuns, LowScheduleFails, TopScheduleRuns, TopScheduleFailsNot, NoSuchThread};
ghost use Rattle.civl_meaning.specs.examples.Flag.{FlagRuns, FlagRunsAtTheTop, FlagFailsNot, GatedCanFail, FlagNeverFails, FlagIsPreserved, GatedIsNotPreserved, SpawnedThreadRuns, SpawnedThreadActs, NotYetSpawned, SpawnedFailNot};

/// Increments without a lock: the lowest program loses some, and an assert fails; the topmost one loses none.
pub fn increments()
    ensures low { LowScheduleRuns }
    ensures low_fails { LowScheduleFails }
    ensures top { TopScheduleRuns }
    ensures top_fails_not { TopScheduleFailsNot }
    ensures nothread { NoSuchThread }
{}

/// A flag that is set: the one schedule of each program.
pub fn flag()
    ensures low { FlagRuns }
    ensures top { FlagRunsAtTheTop }
    ensures fails_not { FlagFailsNot }
{}

/// With a gate the lowest program can fail.
pub fn gated_flag()
    ensures { GatedCanFail }
{}

/// The flag program can fail from no store, so it is preserved, and the gated one is not.
pub fn preservation()
    ensures safe { FlagNeverFails }
    ensures flag { FlagIsPreserved }
    ensures gated { GatedIsNotPreserved }
{}

/// Spawned threads.
pub fn spawned()
    ensures low { SpawnedThreadRuns }
    ensures top { SpawnedThreadActs }
    ensures nothread { NotYetSpawned }
    ensures fails_not { SpawnedFailNot }
{}
