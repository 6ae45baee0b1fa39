// The goals of an outline that fits and none of whose goals weighs too much.
ghost use Rattle.std.specs.Prelude.{◌≡◌, ◌+◌, ◌<◌, ◌^◌, None, All, nat_lt, length, IfOk, IfErr};
ghost use Rattle.std.specs.List.{find};
ghost use Rattle.civl_tree.specs.rules.Rules.{Keeps};
ghost use Rattle.civl_yields.specs.YieldRules.{yield_rules};
ghost use Rattle.civl_conditions.specs.Weights.{weight_limit};
ghost use Rattle.civl_goals.specs.Listed.{goals};
ghost use Rattle.civl_goals.specs.Weights.{weight, heavy};
ghost use Rattle.civl_outlined.specs.Outlined.{Fits, IsFault, IsMisfit};
ghost use Rattle.civl_outlined.specs.inner.Sums.{OfSums, NamesRoots};

use crate::weights::{Sums, weigh, work_out};
use civl_goals::{Goal, first_descending, first_unfit, goals};
use civl_layers::Layered;
use civl_outlines::Outline;
use civl_tree::{List, Memory};
use std::alloc::Global;

/// Why the goals of an outline aren't listed: the hold or note with this number doesn't fit; at this item and statement a root
/// calls a root, or a thread or a spawn calls a procedure that refines an action; this goal's formula weighs too much; or memory
/// is wanting.
#[derive(Clone, Copy, Debug, PartialEq, Eq)]
pub enum OutlineFault {
    Note(u32),
    Roots(u32, u32),
    Heavy(Goal),
    Memory,
}

/// What an outline breaks first, or nothing.
fn misfit(alloc: Global, src: &Layered, outline: &Outline) -> Result<Option<OutlineFault>, Memory>
    requires few { length outline.now.holds + length outline.now.notes < 2 ^ 32 }
    ensures { IfOk result (IsMisfit src.now outline.now) }
{
    match first_unfit(alloc, src, outline)? {
        Some(number) => Ok(Some(OutlineFault::Note(number))),
        None => match first_descending(src) {
            Some((item, statement)) => Ok(Some(OutlineFault::Roots(item, statement))),
            None => Ok(None),
        },
    }
}

/// The first of these goals that weighs too much.
fn first_heavy(sums: &Sums<'_>, list: &[Goal]) -> Option<Goal>
    requires sums { OfSums sums.now }
    requires roots { All (NamesRoots sums.now.said.program.now) list.now }
    ensures { result ≡ find (λ g. nat_lt weight_limit (weight sums.now.said.program.now sums.now.said.outline.now g)) list.now }
{
    for goal in list {
        if weigh(sums, goal).is_heavy() {
            return Some(*goal);
        }
    }
    None
}

/// The first goal of an outline that weighs too much, and the list of all.
fn weighed(
    alloc: Global,
    src: &Layered,
    outline: &Outline,
) -> Result<(Option<Goal>, List<Goal>), Memory>
    requires yields { Keeps yield_rules src.now }
    ensures heavy { IfOk result (λ found. found.0 ≡ heavy src.now outline.now) }
    ensures listed { IfOk result (λ found. found.1 ≡ goals src.now outline.now) }
{
    let sums = work_out(alloc, src, outline)?;
    let list = goals(alloc, src, outline)?;
    let first = first_heavy(&sums, list.as_slice());
    Ok((first, list))
}

/// The goals of an outline in their order, as [`civl_goals::goals`] lists them, where the outline fits the program and no goal
/// weighs more than 400,000. The program keeps the rules on yields, and the outline has fewer than 2^32 holds and notes together.
/// The outline's own program isn't looked at. The time is that of the list and of the texts.
///
/// # Errors
///
/// `Note` comes exactly where a hold or note doesn't fit, and has the first by its number: holds and notes are numbered together,
/// from 0. `Roots` comes exactly where all fit, and a root calls a root, or a declared thread or a spawn calls a procedure that
/// refines an action; it has the item and the statement of the first such place, where those in procedures come before those of
/// threads, whose statement is 0. `Heavy` comes exactly where all this is well and a goal weighs more than 400,000, and has the
/// first in the order of the list. `Memory` comes where memory is wanting.
pub fn outlined(alloc: Global, src: &Layered, outline: &Outline) -> Result<List<Goal>, OutlineFault>
    requires yields { Keeps yield_rules src.now }
    requires few { length outline.now.holds + length outline.now.notes < 2 ^ 32 }
    ensures listed { IfOk result (λ list. list ≡ goals src.now outline.now) }
    ensures fits { IfOk result (λ list. Fits src.now outline.now) }
    ensures light { IfOk result (λ list. heavy src.now outline.now ≡ None) }
    ensures fault { IfErr result (IsFault src.now outline.now) }
{
    match misfit(alloc, src, outline) {
        Ok(None) => {}
        Ok(Some(fault)) => return Err(fault),
        Err(Memory) => return Err(OutlineFault::Memory),
    }
    match weighed(alloc, src, outline) {
        Ok((None, list)) => Ok(list),
        Ok((Some(goal), _list)) => Err(OutlineFault::Heavy(goal)),
        Err(Memory) => Err(OutlineFault::Memory),
    }
}
