// The violations of the conditions on initial stores, and on actions that run beside other threads.
ghost use Rattle.std.specs.Prelude.{◌≡◌, ◌+◌, ◌*◌, ◌≤◌, IfOk, OnOk};
ghost use Rattle.civl_terms.specs.Building.{Lengthens};
ghost use Rattle.civl_terms.specs.Weights.{graph_weight};
ghost use Rattle.civl_conditions.specs.Weights.{weight};
ghost use Rattle.civl_states.specs.formula_parts.Given.{AreVariablesOf};
ghost use Rattle.civl_states.specs.Formulas.{sorts_of, IsViolation};
ghost use Rattle.civl_movers.specs.interfere.Kinds.{IsOfInvariants};

use crate::interfere::acts::act_fails;
use crate::interfere::starts::start_fails;
use civl_conditions::{Condition, Target};
use civl_layers::{Layered, program};
use civl_terms::{Id, Memory, Terms};
use civl_tree::Sort;
use std::alloc::Global as Alloc;

/// The term of the formula that values violate a condition that initial stores or actions keep an invariant of the step, K1 and K11.
/// The graph's variables are those of the condition.
///
/// The condition is of this kind, and its action is there. The graph's weight rises by at most four times the condition's.
///
/// # Errors
///
/// For want of memory; the nodes before stay.
pub fn violation(
    alloc: Alloc,
    terms: &mut Terms,
    src: &Layered,
    sorts: &[Sort],
    condition: &Condition,
) -> Result<Id, Memory>
    requires kind { IsOfInvariants src.now condition.now }
    requires sorts { sorts.now ≡ sorts_of src.now condition.now }
    requires variables { AreVariablesOf terms.old (sorts_of src.now condition.now) }
    ensures says { IfOk result (λ id. IsViolation terms.new id src.now condition.now) }
    ensures weighs { OnOk result (graph_weight terms.new ≤ graph_weight terms.old + 4 * weight src.now condition.now) }
    ensures lengthens { Lengthens terms.old terms.new }
{
    let program = program(src);
    match *condition {
        Condition::Start(step, place) => start_fails(alloc, terms, program, sorts, step, place),
        Condition::Act(step, action, Target::Invariant(place)) => {
            act_fails(alloc, terms, program, sorts, step, action, place)
        }
        _ => unreachable!(),
    }
}
