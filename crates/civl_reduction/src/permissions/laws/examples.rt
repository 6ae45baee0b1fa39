//! Worked examples.
ghost use Rattle.civl_reduction.specs.permissions.examples.Frames.{BeforeAndAfter, Topmost, Waiting};
ghost use Rattle.civl_reduction.specs.permissions.examples.Pool.{PoolAndThread, OneIsParted, ThreeIsNot};

/// What a thread owns before its first step, in its topmost frame, in a frame that waits in a call, and behind its end.
pub fn frames()
    ensures ends { BeforeAndAfter }
    ensures topmost { Topmost }
    ensures waiting { Waiting }
{}

/// A pool of permissions and a thread with one of its own, or with one of the pool's.
pub fn pool()
    ensures items { PoolAndThread }
    ensures parted { OneIsParted }
    ensures not_parted { ThreeIsNot }
{}
