// The invariant of an outline.
ghost use Rattle.std.specs.Prelude.{◌≡◌, ◌+◌, ◌*◌, ◌≤◌, Bool, Some, IfOk, OnOk};
ghost use Rattle.civl_tree.specs.declared.expr.Sort.TheVariants.{Bool as Truth};
ghost use Rattle.civl_terms.specs.Graphs.{sort_at};
ghost use Rattle.civl_terms.specs.Building.{Grows};
ghost use Rattle.civl_terms.specs.Weights.{graph_weight};
ghost use Rattle.civl_states.specs.Stores.{AreGlobals};
ghost use Rattle.civl_goals.specs.Weights.{invariant_weight};
ghost use Rattle.civl_goal_terms.specs.inner.Outlined.{IsOutlined};
ghost use Rattle.civl_goal_terms.specs.inner.Told.{TellsHolds};

use civl_bits::Value;
use civl_outlines::Outline;
use civl_states::and_hold;
use civl_terms::{Id, Memory, Terms};
use civl_tree::{List, Program};

/// Whether all holds are true, at these terms for the globals.
pub(crate) fn holds_at(
    terms: &mut Terms,
    program: &Program,
    outline: &Outline,
    globals: &List<Id>,
) -> Result<Id, Memory>
    requires outlined { IsOutlined program.now outline.now }
    requires globals { AreGlobals terms.old program.now globals.now }
    ensures tells { IfOk result (λ id. TellsHolds terms.old terms.new program.now outline.now globals.now id) }
    ensures sorted { IfOk result (λ id. sort_at terms.new id ≡ Some Truth) }
    ensures weighs { OnOk result (graph_weight terms.new ≤ graph_weight terms.old + 2 * invariant_weight program.now outline.now) }
    ensures grows { Grows terms.old terms.new }
{
    let mut all = terms.constant(Value::Bool(true))?;
    for hold in outline.holds.as_slice() {
        all = and_hold(terms, program, all, hold, globals.as_slice())?;
    }
    Ok(all)
}
