// Who makes the terms of the conditions on paths, and of those on what stays true: calls that have one name in the crates below.
ghost use Rattle.std.specs.Prelude.{◌≡◌, ◌+◌, ◌*◌, ◌≤◌, IfOk, OnOk};
ghost use Rattle.civl_tree.specs.rules.Rules.{Keeps};
ghost use Rattle.civl_linear.specs.Cuts.{all_held};
ghost use Rattle.civl_bodies.specs.Bodies.{AreBodies};
ghost use Rattle.civl_linear.specs.LinearRules.{linear_rules};
ghost use Rattle.civl_terms.specs.Building.{Lengthens};
ghost use Rattle.civl_terms.specs.Weights.{graph_weight};
ghost use Rattle.civl_conditions.specs.Weights.{weight};
ghost use Rattle.civl_states.specs.formula_parts.Given.{AreVariablesOf};
ghost use Rattle.civl_states.specs.Formulas.{sorts_of, IsViolation};
ghost use Rattle.civl_refine.specs.Kinds.{IsOfPaths};
ghost use Rattle.civl_refine.specs.steadiness.Kinds.{IsOfSteadiness};

use civl_bodies::Bodies;
use civl_conditions::Condition;
use civl_layers::{Held, Layered};
use civl_terms::{Id, Memory, Terms};
use civl_tree::Sort;
use std::alloc::Global;

/// The violation of a condition on paths, K9.
pub(crate) fn path_violation(
    alloc: Global,
    terms: &mut Terms,
    src: &Layered,
    held: &Held,
    bodies: &Bodies<'_>,
    sorts: &[Sort],
    condition: &Condition,
) -> Result<Id, Memory>
    requires kind { IsOfPaths src.now condition.now }
    requires linear { Keeps linear_rules src.now }
    requires held { held.now.cuts ≡ all_held src.now }
    requires bodies { AreBodies src.now bodies.now }
    requires sorts { sorts.now ≡ sorts_of src.now condition.now }
    requires variables { AreVariablesOf terms.old (sorts_of src.now condition.now) }
    ensures says { IfOk result (λ id. IsViolation terms.new id src.now condition.now) }
    ensures weighs { OnOk result (graph_weight terms.new ≤ graph_weight terms.old + 4 * weight src.now condition.now) }
    ensures lengthens { Lengthens terms.old terms.new }
{
    let id = civl_refine::violation(alloc, terms, src, held, bodies, sorts, condition)?;
    Ok(id)
}

/// The violation of a condition on what stays true, K1, K10 or K11.
pub(crate) fn steady_violation(
    alloc: Global,
    terms: &mut Terms,
    src: &Layered,
    held: &Held,
    bodies: &Bodies<'_>,
    sorts: &[Sort],
    condition: &Condition,
) -> Result<Id, Memory>
    requires kind { IsOfSteadiness src.now condition.now }
    requires linear { Keeps linear_rules src.now }
    requires held { held.now.cuts ≡ all_held src.now }
    requires bodies { AreBodies src.now bodies.now }
    requires sorts { sorts.now ≡ sorts_of src.now condition.now }
    requires variables { AreVariablesOf terms.old (sorts_of src.now condition.now) }
    ensures says { IfOk result (λ id. IsViolation terms.new id src.now condition.now) }
    ensures weighs { OnOk result (graph_weight terms.new ≤ graph_weight terms.old + 4 * weight src.now condition.now) }
    ensures lengthens { Lengthens terms.old terms.new }
{
    let id = civl_refine::steadiness::violation(alloc, terms, src, held, bodies, sorts, condition)?;
    Ok(id)
}
