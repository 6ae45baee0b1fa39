// The terms of the formulas that values violate goals.
ghost use Rattle.std.specs.Prelude.{◌≡◌, [], IsTrue, IfOk};
ghost use Rattle.std.specs.List.{Contains};
ghost use Rattle.civl_tree.specs.SpellingDomain.{allows_program};
ghost use Rattle.civl_tree.specs.rules.Rules.{Keeps};
ghost use Rattle.civl_yields.specs.YieldRules.{yield_rules};
ghost use Rattle.civl_goals.specs.Listed.{goals};
ghost use Rattle.civl_goals.specs.Rules.{unfit};
ghost use Rattle.civl_verdicts.specs.judging.Made.{IsMade};
ghost use Rattle.civl_prove.specs.Proved.{goal_formula};

use civl_goal_terms::{goal_sorts, goal_violation};
use civl_goals::Goal;
use civl_layers::{Layered, program};
use civl_outlines::Outline;
use civl_terms::Terms;
use civl_verdicts::judging::{Made, Memory};
use std::alloc::Global;

/// The term of the formula that values violate a goal of the list, in a graph of its own.
pub(crate) fn make(
    alloc: Global,
    src: &Layered,
    outline: &Outline,
    goal: &Goal,
) -> Result<Made, Memory>
    requires written { IsTrue (allows_program src.now) }
    requires yields { Keeps yield_rules src.now }
    requires fits { unfit src.now outline.now ≡ [] }
    requires listed { Contains (goals src.now outline.now) goal.now }
    ensures { IfOk result (IsMade (goal_formula src.now outline.now goal.now)) }
{
    // The program keeps the rules that bound the sorts of its variables.
    let _program = program(src);
    let sorts = goal_sorts(alloc, src, goal)?;
    let mut terms = Terms::new(alloc);
    let id = goal_violation(alloc, &mut terms, src, outline, sorts.as_slice(), goal)?;
    Ok(Made { terms, id, sorts })
}
