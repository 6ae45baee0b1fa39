//! The laws. Each function computes nothing; its clauses are theorems.
ghost use Rattle.civl_reduction.specs.simulation.Alike.{ThreadsDoAlike};
ghost use Rattle.civl_reduction.specs.simulation.Joined.{NothingIsRefined, RefinedJoin, ConclusionsRefine};
ghost use Rattle.civl_reduction.specs.simulation.Followed.{CheckedLayersAreFollowed, LayersAreSound, AcceptedPreserve};
ghost use Rattle.civl_reduction.specs.simulation.Between.{BetweenAreSafe};
ghost use Rattle.civl_reduction.specs.simulation.Carried.{CheckedAreRefined};
ghost use Rattle.civl_reduction.specs.simulation.Preserved.{AcceptedProgramsPreserve, CheckedBlocksAreSound, CheckedLayersPreserve};

use crate::checked::laws::checked;
use crate::staged::laws::{checked_end_inside, inside, reduces, stages_are_runs};

pub mod examples;

/// In the programs of two layers, one above the other, a thread does the same next, but where it calls a procedure of the upper
/// layer.
pub fn threads_do_alike()
    ensures { ThreadsDoAlike }
{}

/// Nothing is refined, and blocks that are refined are so one behind the other.
pub fn refined_blocks()
    ensures nothing { NothingIsRefined }
    ensures join { RefinedJoin }
{}

/// What the conditions on paths conclude of a block says that it is refined.
pub fn conclusions_refine()
    ensures { ConclusionsRefine }
{}

/// Where the blocks of a layer's procedures are sound, block runs of the program below are followed by the layer's program.
pub fn layers_are_followed()
    ensures { CheckedLayersAreFollowed }
{
    checked();
}

/// So the layer's program can fail where the program below can.
pub fn layers_are_sound()
    ensures { LayersAreSound }
{
    checked();
    reduces();
}

/// And the topmost program can where the lowest can.
pub fn accepted_preserve()
    ensures { AcceptedPreserve }
{
    layers_are_sound();
}

/// Behind a block run that isn't challenged no thread fails in a procedure of the layer above.
pub fn between_are_safe()
    ensures { BetweenAreSafe }
{
    checked();
    stages_are_runs();
    inside();
}

/// The blocks of a checked program are refined: without a new commit nothing changes that the layer's program sees, and a new
/// commit is a step of the refined action.
pub fn refined()
    ensures { CheckedAreRefined }
{
    checked();
    stages_are_runs();
    inside();
}

/// In a program all of whose conditions hold, the blocks of each layer's procedures are sound.
pub fn blocks_are_sound()
    ensures { CheckedBlocksAreSound }
{
    inside();
    checked_end_inside();
    between_are_safe();
    refined();
}

/// So the program of the next layer can fail where that of a layer can.
pub fn layers_preserve()
    ensures { CheckedLayersPreserve }
{
    layers_are_sound();
    blocks_are_sound();
}

/// And the topmost program fails from each initial store from which the lowest does.
pub fn accepted_programs_preserve()
    ensures { AcceptedProgramsPreserve }
{
    accepted_preserve();
    blocks_are_sound();
}
