//! Worked examples.
ghost use Rattle.civl_reduction.specs.simulation.examples.Beside.{BesideTheFrame, TheCallEnters};

/// Before the commit stands the caller before its call, and behind it behind the call of the refined action.
pub fn beside_a_frame()
    ensures call { TheCallEnters }
    ensures frame { BesideTheFrame }
{}
