//! Worked examples.
ghost use Rattle.civl_reduction.specs.interleavings.examples.Locks.{InterleavedRuns, InterleavedIsNone, ExchangedIsOne, UnfinishedIsNone, SecondIsBlocked};

/// Two threads with a lock: a run in which a step of one stands inside a block of the other is no block run, and the same
/// steps block by block are one, to the same end. A block that is unfinished at the end is none, and a thread waits for the
/// lock.
pub fn locks()
    ensures interleaved { InterleavedRuns }
    ensures is_none { InterleavedIsNone }
    ensures exchanged { ExchangedIsOne }
    ensures unfinished { UnfinishedIsNone }
    ensures blocked { SecondIsBlocked }
{}
