// Whether the goals of an outline hold.
ghost use Rattle.std.specs.Prelude.{◌≡◌, ◌≤◌, ◌+◌, ◌<◌, ◌^◌, [], None, IsTrue, length, IfOk, IfErr};
ghost use Rattle.std.specs.List.{Contains};
ghost use Rattle.civl_tree.specs.SpellingDomain.{allows_program};
ghost use Rattle.civl_tree.specs.rules.Rules.{Keeps};
ghost use Rattle.civl_yields.specs.YieldRules.{yield_rules};
ghost use Rattle.civl_conditions.specs.Weights.{weight_limit};
ghost use Rattle.civl_goals.specs.Listed.{goals};
ghost use Rattle.civl_goals.specs.Rules.{unfit};
ghost use Rattle.civl_goals.specs.Weights.{weight, heavy};
ghost use Rattle.civl_verdicts.specs.decisions.Decided.{IsDecided, WasAsked};
ghost use Rattle.civl_outlined.specs.Outlined.{Fits, IsFault};
ghost use Rattle.civl_prove.specs.Proved.{goal_formula, Proves};
ghost use Rattle.civl_prove.specs.Searches.{Searched, UnaskedWhereRefused};

use crate::making::make;
use crate::proved::Proved;
use civl_goals::Goal;
use civl_layers::Layered;
use civl_outlined::{OutlineFault, outlined};
use civl_outlines::Outline;
use civl_portfolio::Prover;
use civl_tree::List;
use civl_verdicts::decisions::{Decision, decide};
use civl_verdicts::judging::{Made, Memory};
use std::alloc::Global;

/// Decides whether some values violate a goal.
fn decide_goal(
    alloc: Global,
    src: &Layered,
    outline: &Outline,
    goal: &Goal,
    provers: &mut Vec<Box<dyn Prover>>,
    budget: u32,
) -> Result<Decision, Memory>
    requires written { IsTrue (allows_program src.now) }
    requires yields { Keeps yield_rules src.now }
    requires fits { unfit src.now outline.now ≡ [] }
    requires listed { Contains (goals src.now outline.now) goal.now }
    requires light { weight src.now outline.now goal.now ≤ weight_limit }
    ensures decided { IfOk result (IsDecided budget (goal_formula src.now outline.now goal.now)) }
    ensures asked { IfOk result (λ decision. WasAsked provers.old.items provers.new.items budget (record { asked = asked; lacks = lacks; honest = honest; plan = plan })) }
{
    let Made {
        mut terms,
        id,
        sorts,
    } = make(alloc, src, outline, goal)?;
    let decision = decide(alloc, &mut terms, id, sorts.as_slice(), provers, budget)?;
    Ok(decision)
}

/// Decides these goals, which are those of an outline that fits, in their order, up to the first that doesn't hold or isn't
/// decided.
fn prove_goals(
    alloc: Global,
    src: &Layered,
    outline: &Outline,
    list: &List<Goal>,
    provers: &mut Vec<Box<dyn Prover>>,
    budget: u32,
) -> Result<Proved, Memory>
    requires written { IsTrue (allows_program src.now) }
    requires yields { Keeps yield_rules src.now }
    requires fits { Fits src.now outline.now }
    requires listed { list.now ≡ goals src.now outline.now }
    requires light { heavy src.now outline.now ≡ None }
    ensures proved { IfOk result (Proves src.now outline.now budget) }
    ensures searched { IfOk result (λ proved. Searched src.now outline.now proved budget provers.old.items provers.new.items (record { asked = asked; lacks = lacks; honest = honest; plan = plan })) }
{
    for goal in list.as_slice() {
        match decide_goal(alloc, src, outline, goal, provers, budget)? {
            Decision::Never => {}
            Decision::At(values) => return Ok(Proved::Fails(*goal, values)),
            Decision::Spent(log) => return Ok(Proved::Undecided(*goal, log)),
        }
    }
    Ok(Proved::All(list.len()))
}

/// Whether the goals of an outline hold, under a budget of learned clauses for each search: they are decided in their order, up to
/// the first that doesn't hold or isn't decided. The provers are asked about each, and none is believed without its certificate.
/// The program can be spelled and keeps the rules on yields, and the outline has fewer than 2^32 holds and notes together. The
/// outline's own program isn't looked at.
///
/// # Errors
///
/// `Note`, `Roots` and `Heavy` come exactly as from [`outlined`]; no prover is asked then. `Memory` comes where memory is wanting.
/// Nothing is said of the provers then.
pub fn prove(
    alloc: Global,
    src: &Layered,
    outline: &Outline,
    provers: &mut Vec<Box<dyn Prover>>,
    budget: u32,
) -> Result<Proved, OutlineFault>
    requires written { IsTrue (allows_program src.now) }
    requires yields { Keeps yield_rules src.now }
    requires few { length outline.now.holds + length outline.now.notes < 2 ^ 32 }
    ensures proved { IfOk result (Proves src.now outline.now budget) }
    ensures fits { IfOk result (λ proved. Fits src.now outline.now) }
    ensures light { IfOk result (λ proved. heavy src.now outline.now ≡ None) }
    ensures fault { IfErr result (IsFault src.now outline.now) }
    ensures unasked { IfErr result (UnaskedWhereRefused provers.old.items provers.new.items) }
    ensures searched { IfOk result (λ proved. Searched src.now outline.now proved budget provers.old.items provers.new.items (record { asked = asked; lacks = lacks; honest = honest; plan = plan })) }
{
    let list = outlined(alloc, src, outline)?;
    match prove_goals(alloc, src, outline, &list, provers, budget) {
        Ok(proved) => Ok(proved),
        Err(Memory) => Err(OutlineFault::Memory),
    }
}
