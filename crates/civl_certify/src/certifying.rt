// One condition, with its certificate.
ghost use Rattle.std.specs.Prelude.{◌≡◌, ◌≤◌, ◌<◌, None, IsTrue, length, IfOk, IfErr};
ghost use Rattle.std.specs.List.{Contains};
ghost use Rattle.civl_tree.specs.SpellingDomain.{allows_program};
ghost use Rattle.civl_tree.specs.rules.Rules.{Keeps};
ghost use Rattle.civl_linear.specs.LinearRules.{linear_rules};
ghost use Rattle.civl_linear.specs.Cuts.{all_held};
ghost use Rattle.civl_conditions.specs.Listed.{conditions};
ghost use Rattle.civl_conditions.specs.Weights.{weight, weight_limit, heavy};
ghost use Rattle.civl_weights.specs.Heavy.{IsHeavy};
ghost use Rattle.civl_verdicts.specs.Formulas.{violation_formula};
ghost use Rattle.civl_verdicts.specs.decisions.Decided.{IsDecided, WasAsked};
ghost use Rattle.civl_verdicts.specs.judging.Made.{IsMade};
ghost use Rattle.civl_verdicts.specs.judging.Searches.{UnaskedWhereHeavy};
ghost use Rattle.civl_certify.specs.Certified.{IsShown, IsCertified, IsCertifiedAt, CertifiedBy};
ghost use Rattle.civl_verdicts.specs.Verdicts.{SpendsOn};

use crate::certified::{Certified, Shown};
use crate::examining::{Evidence, examine};
use civl_bodies::bodies_of;
use civl_cnf::Log;
use civl_conditions::Condition;
use civl_layers::{Held, Layered};
use civl_portfolio::Prover;
use civl_verdicts::Counter;
use civl_verdicts::decisions::{Decision, decide};
use civl_verdicts::judging::{Made, Makes, Memory, decide_initial};
use civl_weights::{TooMuch, conditions as weighed_conditions};
use std::alloc::Global;

/// The term of the formula that values violate a condition.
fn violation_term<M: Makes>(
    alloc: Global,
    makes: &M,
    src: &Layered,
    held: &Held,
    condition: &Condition,
) -> Result<Made, Memory>
    requires written { IsTrue (allows_program src.now) }
    requires linear { Keeps linear_rules src.now }
    requires held { held.now.cuts ≡ all_held src.now }
    requires listed { Contains (conditions src.now) condition.now }
    ensures { IfOk result (IsMade (violation_formula src.now condition.now)) }
{
    let bodies = bodies_of(alloc, src)?;
    makes.violation(alloc, src, held, &bodies, condition)
}

/// Decides whether some values violate a condition, without provers.
fn decide_alone<M: Makes>(
    alloc: Global,
    makes: &M,
    src: &Layered,
    held: &Held,
    condition: &Condition,
    budget: u32,
) -> Result<Decision, Memory>
    requires written { IsTrue (allows_program src.now) }
    requires linear { Keeps linear_rules src.now }
    requires held { held.now.cuts ≡ all_held src.now }
    requires listed { Contains (conditions src.now) condition.now }
    requires light { weight src.now condition.now ≤ weight_limit }
    ensures { IfOk result (IsDecided budget (violation_formula src.now condition.now)) }
{
    let Made {
        mut terms,
        id,
        sorts,
    } = violation_term(alloc, makes, src, held, condition)?;
    let mut nobody: Vec<Box<dyn Prover>> = Vec::new(alloc);
    let decision = decide(alloc, &mut terms, id, sorts.as_slice(), &mut nobody, budget)?;
    Ok(decision)
}

/// What is shown of a condition where the search for values that violate it spent the budget on this log. It may still be that there
/// are no more lists of values than the budget: then all are tried.
fn left_open<M: Makes>(
    alloc: Global,
    makes: &M,
    src: &Layered,
    held: &Held,
    condition: &Condition,
    budget: u32,
    log: Log,
) -> Result<Shown, Memory>
    requires written { IsTrue (allows_program src.now) }
    requires linear { Keeps linear_rules src.now }
    requires held { held.now.cuts ≡ all_held src.now }
    requires listed { Contains (conditions src.now) condition.now }
    requires light { weight src.now condition.now ≤ weight_limit }
    requires spends { SpendsOn budget (violation_formula src.now condition.now) log }
    ensures { IfOk result (IsShown src.now budget condition.now) }
{
    match decide_alone(alloc, makes, src, held, condition, budget)? {
        Decision::At(values) => {
            let condition = *condition;
            Ok(Shown::Fails(Counter { condition, values }))
        }
        Decision::Never => Ok(Shown::Undecided(log)),
        Decision::Spent(_again) => Ok(Shown::Undecided(log)),
    }
}

/// What is shown of a condition.
fn show<M: Makes>(
    alloc: Global,
    makes: &M,
    src: &Layered,
    held: &Held,
    condition: &Condition,
    provers: &mut Vec<Box<dyn Prover>>,
    budget: u32,
) -> Result<Shown, Memory>
    requires written { IsTrue (allows_program src.now) }
    requires linear { Keeps linear_rules src.now }
    requires held { held.now.cuts ≡ all_held src.now }
    requires listed { Contains (conditions src.now) condition.now }
    requires light { weight src.now condition.now ≤ weight_limit }
    ensures shown { IfOk result (IsShown src.now budget condition.now) }
    ensures asked { IfOk result (λ shown. WasAsked provers.old.items provers.new.items budget (record { asked = asked; lacks = lacks; honest = honest; plan = plan })) }
{
    let Made {
        mut terms,
        id,
        sorts,
    } = violation_term(alloc, makes, src, held, condition)?;
    match examine(alloc, &mut terms, id, sorts.as_slice(), provers, budget)? {
        Evidence::Refuted(cnf, log) => Ok(Shown::Holds(cnf, log)),
        Evidence::At(values) => {
            let condition = *condition;
            Ok(Shown::Fails(Counter { condition, values }))
        }
        Evidence::Spent(log) => {
            let shown = left_open(alloc, makes, src, held, condition, budget, log)?;
            Ok(shown)
        }
    }
}

/// What is shown of a condition of a layered program none of whose formulas weighs too much, behind the search for an initial store.
fn answer<M: Makes>(
    alloc: Global,
    makes: &M,
    src: &Layered,
    held: &Held,
    condition: &Condition,
    provers: &mut Vec<Box<dyn Prover>>,
    budget: u32,
) -> Result<Certified, Memory>
    requires written { IsTrue (allows_program src.now) }
    requires linear { Keeps linear_rules src.now }
    requires held { held.now.cuts ≡ all_held src.now }
    requires listed { Contains (conditions src.now) condition.now }
    requires light { heavy src.now ≡ None }
    ensures certified { IfOk result (IsCertified src.now budget condition.now) }
    ensures searched { IfOk result (λ certified. CertifiedBy certified budget provers.old.items provers.new.items (record { asked = asked; lacks = lacks; honest = honest; plan = plan })) }
{
    match decide_initial(alloc, makes, src, provers, budget)? {
        Decision::Never => Ok(Certified::NoInitial),
        Decision::At(_store) => {
            let shown = show(alloc, makes, src, held, condition, provers, budget)?;
            Ok(Certified::Answer(None, shown))
        }
        Decision::Spent(log) => {
            let shown = show(alloc, makes, src, held, condition, provers, budget)?;
            Ok(Certified::Answer(Some(log), shown))
        }
    }
}

/// What is shown of the condition of a layered program with this number, from 0, in the order of its list, behind the search for an
/// initial store, under a budget of learned clauses for each of the two searches. There is a condition with this number. The provers
/// are asked about both formulas, and none is believed without its certificate.
///
/// A condition that holds comes with the clause set that was made for its violation (Tseitin, "On the complexity of derivation in
/// propositional calculus", 1968) and with a log that refutes it. Where the search learned as many clauses as were allowed and the
/// violation has no more lists of values than that, all are tried: the condition is then left open only where it holds.
///
/// # Errors
///
/// `Weight` comes exactly where a formula weighs more than 400,000, and has the first, as `conditions` of civl_weights has it; no
/// prover is asked then. `Memory` comes where memory is wanting. Nothing is said of the provers then.
pub fn certify<M: Makes>(
    alloc: Global,
    makes: &M,
    src: &Layered,
    held: &Held,
    provers: &mut Vec<Box<dyn Prover>>,
    budget: u32,
    number: u32,
) -> Result<Certified, TooMuch>
    requires written { IsTrue (allows_program src.now) }
    requires linear { Keeps linear_rules src.now }
    requires held { held.now.cuts ≡ all_held src.now }
    requires number { number < length (conditions src.now) }
    ensures certified { IfOk result (IsCertifiedAt src.now budget number) }
    ensures light { IfOk result (λ certified. heavy src.now ≡ None) }
    ensures heavy { IfErr result (IsHeavy (heavy src.now)) }
    ensures unasked { IfErr result (UnaskedWhereHeavy provers.old.items provers.new.items) }
    ensures searched { IfOk result (λ certified. CertifiedBy certified budget provers.old.items provers.new.items (record { asked = asked; lacks = lacks; honest = honest; plan = plan })) }
{
    let list = weighed_conditions(alloc, src, held)?;
    let condition = list.get(number as usize);
    match answer(alloc, makes, src, held, condition, provers, budget) {
        Ok(certified) => Ok(certified),
        Err(Memory) => Err(TooMuch::Memory),
    }
}
