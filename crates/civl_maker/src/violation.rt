// The violation of any condition of the list, as a term over the condition's variables.
ghost use Rattle.std.specs.Prelude.{◌≡◌, ◌+◌, ◌*◌, ◌≤◌, IsTrue, IfOk, OnOk};
ghost use Rattle.std.specs.List.{Contains};
ghost use Rattle.civl_tree.specs.SpellingDomain.{allows_program};
ghost use Rattle.civl_tree.specs.rules.Rules.{Keeps};
ghost use Rattle.civl_linear.specs.Cuts.{all_held};
ghost use Rattle.civl_bodies.specs.Bodies.{AreBodies};
ghost use Rattle.civl_linear.specs.LinearRules.{linear_rules};
ghost use Rattle.civl_terms.specs.Weights.{graph_weight};
ghost use Rattle.civl_conditions.specs.Listed.{conditions};
ghost use Rattle.civl_conditions.specs.Weights.{weight};
ghost use Rattle.civl_states.specs.formula_parts.Given.{AreVariablesOf};
ghost use Rattle.civl_states.specs.Formulas.{sorts_of, IsViolation};
ghost use Rattle.civl_maker.specs.inner.Kinds.{kind_of};

use crate::makers::{path_violation, steady_violation};
use civl_bodies::Bodies;
use civl_conditions::Condition;
use civl_layers::{Held, Layered};
use civl_movers::violation as action_violation;
use civl_terms::{Id, Memory, Terms};
use civl_tree::Sort;
use std::alloc::Global;

/// What a condition speaks of.
#[derive(Clone, Copy, PartialEq, Eq)]
pub(crate) enum Kind {
    /// Actions alone: K2 to K8.
    Actions,
    /// What a path has to do: K9.
    Paths,
    /// What stays true, in initial stores and under blocks and actions of others: K1, K10 and K11.
    Steadiness,
}

/// The kind of a condition.
fn kind_of(condition: &Condition) -> Kind
    ensures { result ≡ kind_of condition.now }
{
    match *condition {
        Condition::Start(_, _) => Kind::Steadiness,
        Condition::Keep(_, _) => Kind::Actions,
        Condition::Pair(_, _, _, _) => Kind::Actions,
        Condition::Fire(_, _) => Kind::Actions,
        Condition::Path(_, _, _, _) => Kind::Paths,
        Condition::Block(_, _, _, _) => Kind::Steadiness,
        Condition::Act(_, _, _) => Kind::Steadiness,
    }
}

/// The term of the formula that values violate a condition of the program's list. The graph's variables are those of the condition,
/// whose sorts are given in their order, and the graph's weight rises by at most four times the condition's.
pub(crate) fn violation(
    alloc: Global,
    terms: &mut Terms,
    src: &Layered,
    held: &Held,
    bodies: &Bodies<'_>,
    sorts: &[Sort],
    condition: &Condition,
) -> Result<Id, Memory>
    requires written { IsTrue (allows_program src.now) }
    requires linear { Keeps linear_rules src.now }
    requires held { held.now.cuts ≡ all_held src.now }
    requires bodies { AreBodies src.now bodies.now }
    requires listed { Contains (conditions src.now) condition.now }
    requires sorts { sorts.now ≡ sorts_of src.now condition.now }
    requires variables { AreVariablesOf terms.old (sorts_of src.now condition.now) }
    ensures says { IfOk result (λ id. IsViolation terms.new id src.now condition.now) }
    ensures weighs { OnOk result (graph_weight terms.new ≤ graph_weight terms.old + 4 * weight src.now condition.now) }
{
    match kind_of(condition) {
        Kind::Actions => {
            let id = action_violation(alloc, terms, src, sorts, condition)?;
            Ok(id)
        }
        Kind::Paths => {
            let id = path_violation(alloc, terms, src, held, bodies, sorts, condition)?;
            Ok(id)
        }
        Kind::Steadiness => {
            let id = steady_violation(alloc, terms, src, held, bodies, sorts, condition)?;
            Ok(id)
        }
    }
}
