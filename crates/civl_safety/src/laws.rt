//! The laws. Each function computes nothing; its clauses are theorems.
ghost use Rattle.civl_safety.specs.Stands.{OutlineStays};
ghost use Rattle.civl_safety.specs.Safe.{TopIsSafe, LowestIsSafe};

use civl_reduction::checked::laws::checked;
use civl_reduction::simulation::laws::accepted_programs_preserve;

pub mod examples;

/// Where an outline fits and all its goals hold, what it says holds of each configuration that a run of the topmost program reaches.
pub fn outline_stays()
    ensures { OutlineStays }
{
    checked();
}

/// So no run of the topmost program fails.
pub fn top_is_safe()
    ensures { TopIsSafe }
{
    checked();
}

/// And where all conditions of the program hold, no interleaving of the lowest program does.
pub fn lowest_is_safe()
    ensures { LowestIsSafe }
{
    checked();
    top_is_safe();
    accepted_programs_preserve();
}
