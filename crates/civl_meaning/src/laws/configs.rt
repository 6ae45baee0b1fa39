//! Configurations of a program.
ghost use Rattle.civl_meaning.specs.Config.{StartIsOf, StepKeepsStacks, RunKeepsStacks};
ghost use Rattle.civl_meaning.specs.examples.Configs.{ReachedIsOf, NoSuchProcedure, NoSuchPlace, NoSuchCaller, NoBodyThere, NoSuchStore, NoSuchThread};

/// A program that keeps the static rules starts with one of its configurations.
pub fn starts()
    ensures { StartIsOf }
{}

/// A step keeps the frames stacked: each stands at a place of its procedure's body, and each below the topmost waits in
/// the call that made the next. So does a run.
pub fn stacks()
    ensures step { StepKeepsStacks }
    ensures run { RunKeepsStacks }
{}

/// A configuration that is the flag program's, and others that aren't.
pub fn examples()
    ensures reached { ReachedIsOf }
    ensures procedure { NoSuchProcedure }
    ensures place { NoSuchPlace }
    ensures caller { NoSuchCaller }
    ensures body { NoBodyThere }
    ensures store { NoSuchStore }
    ensures thread { NoSuchThread }
{}
