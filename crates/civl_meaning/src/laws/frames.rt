//! The frames of threads.
ghost use Rattle.civl_meaning.specs.Frame.{FramesAreDepth};
ghost use Rattle.civl_meaning.specs.examples.Frames.{OneFrameBefore, ThreeFrames, SecondBranchFrame, ExitFrame, OneFrameAfter};

/// A thread has as many frames as it is deep.
pub fn depths()
    ensures { FramesAreDepth }
{}

/// The frames of a thread before its call, in a call inside a call, in a branch, at an exit, and after its call.
pub fn nested()
    ensures before { OneFrameBefore }
    ensures three { ThreeFrames }
    ensures branch { SecondBranchFrame }
    ensures exit { ExitFrame }
    ensures after { OneFrameAfter }
{}
