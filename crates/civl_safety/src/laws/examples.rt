//! Worked examples.
ghost use Rattle.civl_safety.specs.examples.Held.{HeldIsOutlined, SilentIsNot, GatedIsAccepted, GatedIsSafe};

use crate::laws::lowest_is_safe;

/// Whether an outline proves that a call with the flag as its gate doesn't fail: with the flag as invariant, and with nothing.
pub fn held()
    ensures proved { HeldIsOutlined }
    ensures unproved { SilentIsNot }
{}

/// All conditions of that program hold.
pub fn gated()
    ensures { GatedIsAccepted }
{}

/// So no interleaving of its lowest program fails.
pub fn gated_is_safe()
    ensures { GatedIsSafe }
{
    lowest_is_safe();
    held();
    gated();
}
