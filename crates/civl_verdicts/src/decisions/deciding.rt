// A formula is decided.
ghost use Rattle.std.specs.Prelude.{◌≡◌, ◌≤◌, ◌<◌, ◌^◌, length, All, IsTrue, IfOk, Some};
ghost use Rattle.civl_tree.specs.declared.expr.Sort.TheVariants.{Bool as Truth};
ghost use Rattle.civl_firing.specs.values.Values.{is_sort};
ghost use Rattle.civl_terms.specs.Graphs.{sort_at};
ghost use Rattle.civl_terms.specs.Building.{Lengthens};
ghost use Rattle.civl_terms.specs.Weights.{graph_weight};
ghost use Rattle.civl_states.specs.formula_parts.Given.{AreVariablesOf};
ghost use Rattle.civl_verdicts.specs.Formulas.{Formula};
ghost use Rattle.civl_verdicts.specs.inner.decisions.Answered.{IsAnswered};
ghost use Rattle.civl_verdicts.specs.decisions.Decided.{IsTermOf, IsDecided, WasAsked};

use crate::decisions::decision::Decision;
use crate::decisions::memory::Memory;
use crate::decisions::numbering::count_lists;
use crate::decisions::trying::first_true;
use crate::models::read_back;
use civl_blast::{Blasted, blast};
use civl_cdcl::Outcome;
use civl_cnf::Log;
use civl_portfolio::{Asked, Prover, ask};
use civl_terms::{Id, Terms};
use civl_tree::Sort;
use std::alloc::Global;

/// What is known where the search spent its budget: the log, where there are more lists of values than the budget; else they
/// are all tried.
fn answer(
    alloc: Global,
    terms: &Terms,
    id: Id,
    sorts: &[Sort],
    log: Log,
    budget: u32,
) -> Result<Decision, Memory>
    requires within { id < length terms.now }
    requires limits { All (λ s. IsTrue (is_sort s)) sorts.now }
    ensures { IfOk result (λ decision. IsAnswered terms.now id sorts.now budget log decision) }
{
    match count_lists(sorts, budget) {
        None => Ok(Decision::Spent(log)),
        Some(count) => match first_true(alloc, terms, id, sorts, count)? {
            Some(values) => Ok(Decision::At(values)),
            None => Ok(Decision::Never),
        },
    }
}

/// Decides a formula by its term, which has no other variables than those of these sorts, numbered in their order.
///
/// The term is blasted, and the provers are asked in turn; none is believed without its certificate. Bits that make the clauses true
/// are read back to values. Where the search spends its budget of learned clauses and there are no more lists of values than the
/// budget, all are tried. The graph weighs at most 1,600,000, and there are fewer than 2^31 variables; the graph grows, and the nodes
/// that it had stay.
///
/// # Errors
///
/// For want of memory; nothing is said of the provers then.
pub fn decide(
    alloc: Global,
    terms: &mut Terms,
    id: Id,
    sorts: &[Sort],
    provers: &mut Vec<Box<dyn Prover>>,
    budget: u32,
) -> Result<Decision, Memory>
    requires truth { sort_at terms.old id ≡ Some Truth }
    requires variables { AreVariablesOf terms.old sorts.now }
    requires limits { All (λ s. IsTrue (is_sort s)) sorts.now }
    requires light { graph_weight terms.old ≤ 1600000 }
    requires few { length sorts.now < 2 ^ 31 }
    ensures decided { IfOk result (λ decision. (formula : Formula) → IsTermOf terms.old id sorts.now formula → IsDecided budget formula decision) }
    ensures asked { IfOk result (λ decision. WasAsked provers.old.items provers.new.items budget (record { asked = asked; lacks = lacks; honest = honest; plan = plan })) }
    ensures grows { Lengthens terms.old terms.new }
{
    let _count = terms.len();
    let Blasted { cnf, places } = blast(alloc, terms, id)?;
    let Asked { outcome, .. } = ask(alloc, provers, &cnf, budget)?;
    match outcome {
        Outcome::Unsat(_log) => Ok(Decision::Never),
        Outcome::Sat(bits) => {
            let values = read_back(alloc, sorts, places.as_slice(), &bits)?;
            Ok(Decision::At(values))
        }
        Outcome::Spent(log) => {
            let decision = answer(alloc, terms, id, sorts, log, budget)?;
            Ok(decision)
        }
    }
}
