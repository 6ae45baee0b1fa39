// The violation of any goal of the list, as a term over the goal's variables.
ghost use Rattle.std.specs.Prelude.{◌≡◌, ◌+◌, ◌*◌, ◌≤◌, ◌<◌, [], IsTrue, IfOk, OnOk};
ghost use Rattle.std.specs.List.{Contains};
ghost use Rattle.civl_tree.specs.SpellingDomain.{allows_program};
ghost use Rattle.civl_tree.specs.rules.Rules.{Keeps};
ghost use Rattle.civl_yields.specs.YieldRules.{yield_rules};
ghost use Rattle.civl_terms.specs.Building.{Lengthens};
ghost use Rattle.civl_terms.specs.Weights.{graph_weight};
ghost use Rattle.civl_states.specs.formula_parts.Given.{AreVariablesOf};
ghost use Rattle.civl_goals.specs.declared.goal.Goal.TheVariants as goal;
ghost use Rattle.civl_goals.specs.Listed.{goals};
ghost use Rattle.civl_goals.specs.Rules.{unfit};
ghost use Rattle.civl_goals.specs.Weights.{weight};
ghost use Rattle.civl_goal_terms.specs.Formulas.{sorts_of, IsViolation};
ghost use Rattle.civl_goal_terms.specs.inner.There.{IsThere};

use crate::begins::{invariant_fails, thread_begins_astray};
use crate::others::other_fails;
use crate::statements::statement_fails;
use civl_conditions::Condition;
use civl_goals::Goal;
use civl_layers::{Layered, program};
use civl_movers::violation as action_violation;
use civl_outlines::Outline;
use civl_terms::{Id, Memory, Terms};
use civl_tree::Sort;
use std::alloc::Global as Alloc;

/// That an action of the top layer keeps permissions apart and makes none: K2 of the step that would follow the last one.
fn linear_fails(
    alloc: Alloc,
    terms: &mut Terms,
    src: &Layered,
    outline: &Outline,
    sorts: &[Sort],
    action: u32,
) -> Result<Id, Memory>
    requires written { IsTrue (allows_program src.now) }
    requires there { IsThere src.now (goal.Linear action) }
    requires sorts { sorts.now ≡ sorts_of src.now (goal.Linear action) }
    requires variables { AreVariablesOf terms.old sorts.now }
    ensures says { IfOk result (λ id. IsViolation terms.new id src.now outline.now (goal.Linear action)) }
    ensures weighs { OnOk result (graph_weight terms.new ≤ graph_weight terms.old + 4 * weight src.now outline.now (goal.Linear action)) }
    ensures lengthens { Lengthens terms.old terms.new }
{
    let keep = Condition::Keep(program(src).layers + 1, action);
    let id = action_violation(alloc, terms, src, sorts, &keep)?;
    Ok(id)
}

/// The term of the formula that values violate a goal of the outline's list. The graph's variables are those of the goal, whose sorts
/// are given in their order. The term is true exactly at the values of these sorts that violate the goal; the graph's weight rises by
/// at most four times the goal's.
///
/// The program can be spelled and keeps the rules on layers and on yields, and the outline's holds and notes fit it.
///
/// # Errors
///
/// For want of memory; the nodes before stay.
pub fn goal_violation(
    alloc: Alloc,
    terms: &mut Terms,
    src: &Layered,
    outline: &Outline,
    sorts: &[Sort],
    goal: &Goal,
) -> Result<Id, Memory>
    requires written { IsTrue (allows_program src.now) }
    requires yields { Keeps yield_rules src.now }
    requires fits { unfit src.now outline.now ≡ [] }
    requires listed { Contains (goals src.now outline.now) goal.now }
    requires sorts { sorts.now ≡ sorts_of src.now goal.now }
    requires variables { AreVariablesOf terms.old sorts.now }
    ensures says { IfOk result (λ id. IsViolation terms.new id src.now outline.now goal.now) }
    ensures weighs { OnOk result (graph_weight terms.new ≤ graph_weight terms.old + 4 * weight src.now outline.now goal.now) }
    ensures lengthens { Lengthens terms.old terms.new }
{
    let program = program(src);
    match *goal {
        Goal::Invariant => {
            let id = invariant_fails(alloc, terms, program, outline, sorts)?;
            Ok(id)
        }
        Goal::Thread(number) => {
            let id = thread_begins_astray(alloc, terms, program, outline, sorts, number)?;
            Ok(id)
        }
        Goal::Linear(action) => {
            let id = linear_fails(alloc, terms, src, outline, sorts, action)?;
            Ok(id)
        }
        Goal::Safe(root, number) => {
            let id = statement_fails(alloc, terms, src, outline, sorts, goal, root, number)?;
            Ok(id)
        }
        Goal::Keep(root, number) => {
            let id = statement_fails(alloc, terms, src, outline, sorts, goal, root, number)?;
            Ok(id)
        }
        Goal::Spawn(root, number) => {
            let id = statement_fails(alloc, terms, src, outline, sorts, goal, root, number)?;
            Ok(id)
        }
        Goal::Next(root, number) => {
            let id = statement_fails(alloc, terms, src, outline, sorts, goal, root, number)?;
            Ok(id)
        }
        Goal::Other(root, number, other, other_number) => {
            let id = other_fails(
                alloc,
                terms,
                src,
                outline,
                sorts,
                root,
                number,
                other,
                other_number,
            )?;
            Ok(id)
        }
    }
}
