//! What the goals are on worked examples.
ghost use Rattle.civl_goals.specs.examples.Flag.{SetGoals, ReadGoals, ReadVariables, SetWeights, GateFails, HeldGateHolds, ReadLeadsAstray, NotedReadLeadsOn, NotesFit, ThreadDescends};

/// The goals of a program whose root calls once.
pub fn set_goals()
    ensures { SetGoals }
{}

/// Those of one whose root calls, reads and asserts, with notes before the last two.
pub fn read_goals()
    ensures { ReadGoals }
{}

/// Their variables.
pub fn read_variables()
    ensures { ReadVariables }
{}

/// What the goals of the first weigh.
pub fn set_weights()
    ensures { SetWeights }
{}

/// A call whose gate isn't known to hold.
pub fn gate_fails()
    ensures { GateFails }
{}

/// The same call under an invariant.
pub fn held_gate_holds()
    ensures { HeldGateHolds }
{}

/// A read before which nothing is noted.
pub fn read_leads_astray()
    ensures { ReadLeadsAstray }
{}

/// The same read with its note.
pub fn noted_read_leads_on()
    ensures { NotedReadLeadsOn }
{}

/// Notes that fit, and one behind a body.
pub fn notes_fit()
    ensures { NotesFit }
{}

/// A thread that calls a procedure which refines an action.
pub fn thread_descends()
    ensures { ThreadDescends }
{}
