// What is found of a formula by its term, with its certificate.
ghost use Rattle.std.specs.Prelude.{◌≡◌, ◌≤◌, ◌<◌, ◌^◌, length, All, IsTrue, IfOk, Some};
ghost use Rattle.civl_tree.specs.declared.expr.Sort.TheVariants.{Bool as Truth};
ghost use Rattle.civl_firing.specs.values.Values.{is_sort};
ghost use Rattle.civl_terms.specs.Graphs.{sort_at};
ghost use Rattle.civl_terms.specs.Weights.{graph_weight};
ghost use Rattle.civl_states.specs.formula_parts.Given.{AreVariablesOf};
ghost use Rattle.civl_verdicts.specs.Formulas.{Formula};
ghost use Rattle.civl_verdicts.specs.decisions.Decided.{IsTermOf, WasAsked};
ghost use Rattle.civl_certify.specs.inner.Examined.{IsEvidence};

use civl_bits::Value;
use civl_blast::{Blasted, blast};
use civl_cdcl::Outcome;
use civl_cnf::{Cnf, Log};
use civl_portfolio::{Asked, Prover, ask};
use civl_terms::{Id, Terms};
use civl_tree::{List, Sort};
use civl_verdicts::decisions::Memory;
use civl_verdicts::models::read_back;
use std::alloc::Global;

/// What is found of a formula.
#[derive(Drop)]
pub(crate) enum Evidence {
    /// No values of its variables make it true: the log refutes the clause set, which stands for it.
    Refuted(Cnf, Log),
    /// These make it true: one for each of its variables, in their order.
    At(List<Value>),
    /// The search learned as many clauses as were allowed; here they are.
    Spent(Log),
}

/// What is found of a formula by its term, which has no other variables than those of these sorts, numbered in their order. The graph
/// weighs at most 1,600,000, and there are fewer than 2^31 variables.
pub(crate) fn examine(
    alloc: Global,
    terms: &mut Terms,
    id: Id,
    sorts: &[Sort],
    provers: &mut Vec<Box<dyn Prover>>,
    budget: u32,
) -> Result<Evidence, Memory>
    requires truth { sort_at terms.old id ≡ Some Truth }
    requires variables { AreVariablesOf terms.old sorts.now }
    requires limits { All (λ s. IsTrue (is_sort s)) sorts.now }
    requires light { graph_weight terms.old ≤ 1600000 }
    requires few { length sorts.now < 2 ^ 31 }
    ensures found { IfOk result (λ evidence. (formula : Formula) → IsTermOf terms.old id sorts.now formula → IsEvidence budget formula evidence) }
    ensures asked { IfOk result (λ evidence. WasAsked provers.old.items provers.new.items budget (record { asked = asked; lacks = lacks; honest = honest; plan = plan })) }
{
    let _count = terms.len();
    let Blasted { cnf, places } = blast(alloc, terms, id)?;
    let _variables = cnf.variables();
    let Asked { outcome, .. } = ask(alloc, provers, &cnf, budget)?;
    match outcome {
        Outcome::Unsat(log) => Ok(Evidence::Refuted(cnf, log)),
        Outcome::Sat(bits) => {
            let values = read_back(alloc, sorts, places.as_slice(), &bits)?;
            Ok(Evidence::At(values))
        }
        Outcome::Spent(log) => Ok(Evidence::Spent(log)),
    }
}
