// The verdict on a layered program.
ghost use Rattle.std.specs.Prelude.{◌≡◌, ◌≤◌, None, IsTrue, IfOk, IfErr};
ghost use Rattle.std.specs.List.{Contains};
ghost use Rattle.civl_tree.specs.SpellingDomain.{allows_program};
ghost use Rattle.civl_tree.specs.rules.Rules.{Keeps};
ghost use Rattle.civl_linear.specs.LinearRules.{linear_rules};
ghost use Rattle.civl_linear.specs.Cuts.{all_held};
ghost use Rattle.civl_bodies.specs.Bodies.{AreBodies};
ghost use Rattle.civl_conditions.specs.Listed.{conditions};
ghost use Rattle.civl_conditions.specs.Weights.{weight, initial_weight, weight_limit, heavy};
ghost use Rattle.civl_weights.specs.Heavy.{IsHeavy};
ghost use Rattle.civl_verdicts.specs.Formulas.{initial_formula, violation_formula};
ghost use Rattle.civl_verdicts.specs.Verdicts.{IsVerdict, HasInitial};
ghost use Rattle.civl_verdicts.specs.decisions.Decided.{IsDecided, WasAsked};
ghost use Rattle.civl_verdicts.specs.judging.Searches.{Searched, SearchedOn, UnaskedWhereHeavy};

use crate::decisions::{Decision, decide};
use crate::judging::formula::{Made, Makes};
use crate::judging::memory::Memory;
use crate::{Counter, Verdict};
use civl_bodies::{Bodies, bodies_of};
use civl_conditions::Condition;
use civl_layers::{Held, Layered};
use civl_portfolio::Prover;
use civl_tree::List;
use civl_weights::{TooMuch, conditions as weighed_conditions};
use std::alloc::Global;

/// Decides whether some store is initial. At most the budget of learned clauses is spent on it.
///
/// # Errors
///
/// For want of memory.
pub fn decide_initial<M: Makes>(
    alloc: Global,
    makes: &M,
    src: &Layered,
    provers: &mut Vec<Box<dyn Prover>>,
    budget: u32,
) -> Result<Decision, Memory>
    requires light { initial_weight src.now ≤ weight_limit }
    ensures decided { IfOk result (IsDecided budget (initial_formula src.now)) }
    ensures asked { IfOk result (λ decision. WasAsked provers.old.items provers.new.items budget (record { asked = asked; lacks = lacks; honest = honest; plan = plan })) }
{
    let Made {
        mut terms,
        id,
        sorts,
    } = makes.initial(alloc, src)?;
    let decision = decide(alloc, &mut terms, id, sorts.as_slice(), provers, budget)?;
    Ok(decision)
}

/// Decides whether some values violate a condition.
pub(crate) fn decide_violation<M: Makes>(
    alloc: Global,
    makes: &M,
    src: &Layered,
    held: &Held,
    bodies: &Bodies<'_>,
    condition: &Condition,
    provers: &mut Vec<Box<dyn Prover>>,
    budget: u32,
) -> Result<Decision, Memory>
    requires written { IsTrue (allows_program src.now) }
    requires linear { Keeps linear_rules src.now }
    requires held { held.now.cuts ≡ all_held src.now }
    requires bodies { AreBodies src.now bodies.now }
    requires listed { Contains (conditions src.now) condition.now }
    requires light { weight src.now condition.now ≤ weight_limit }
    ensures decided { IfOk result (IsDecided budget (violation_formula src.now condition.now)) }
    ensures asked { IfOk result (λ decision. WasAsked provers.old.items provers.new.items budget (record { asked = asked; lacks = lacks; honest = honest; plan = plan })) }
{
    let Made {
        mut terms,
        id,
        sorts,
    } = makes.violation(alloc, src, held, bodies, condition)?;
    let decision = decide(alloc, &mut terms, id, sorts.as_slice(), provers, budget)?;
    Ok(decision)
}

/// The verdict on a layered program that has an initial store: its conditions are decided in their order, up to the first that
/// doesn't hold or isn't decided.
fn judge_conditions<M: Makes>(
    alloc: Global,
    makes: &M,
    src: &Layered,
    held: &Held,
    bodies: &Bodies<'_>,
    list: &List<Condition>,
    provers: &mut Vec<Box<dyn Prover>>,
    budget: u32,
) -> Result<Verdict, Memory>
    requires written { IsTrue (allows_program src.now) }
    requires linear { Keeps linear_rules src.now }
    requires held { held.now.cuts ≡ all_held src.now }
    requires bodies { AreBodies src.now bodies.now }
    requires listed { list.now ≡ conditions src.now }
    requires light { heavy src.now ≡ None }
    requires initial { HasInitial src.now }
    ensures verdict { IfOk result (IsVerdict src.now budget) }
    ensures searched { IfOk result (λ verdict. SearchedOn src.now verdict budget provers.old.items provers.new.items (record { asked = asked; lacks = lacks; honest = honest; plan = plan })) }
{
    for condition in list.as_slice() {
        match decide_violation(alloc, makes, src, held, bodies, condition, provers, budget)? {
            Decision::Never => {}
            Decision::At(values) => {
                let condition = *condition;
                return Ok(Verdict::Rejected(Counter { condition, values }));
            }
            Decision::Spent(log) => return Ok(Verdict::Undecided(Some(*condition), log)),
        }
    }
    Ok(Verdict::Accepted(list.len()))
}

/// The same, with the table of the program's bodies made once.
fn judge_all<M: Makes>(
    alloc: Global,
    makes: &M,
    src: &Layered,
    held: &Held,
    list: &List<Condition>,
    provers: &mut Vec<Box<dyn Prover>>,
    budget: u32,
) -> Result<Verdict, Memory>
    requires written { IsTrue (allows_program src.now) }
    requires linear { Keeps linear_rules src.now }
    requires held { held.now.cuts ≡ all_held src.now }
    requires listed { list.now ≡ conditions src.now }
    requires light { heavy src.now ≡ None }
    requires initial { HasInitial src.now }
    ensures verdict { IfOk result (IsVerdict src.now budget) }
    ensures searched { IfOk result (λ verdict. SearchedOn src.now verdict budget provers.old.items provers.new.items (record { asked = asked; lacks = lacks; honest = honest; plan = plan })) }
{
    let bodies = bodies_of(alloc, src)?;
    judge_conditions(alloc, makes, src, held, &bodies, list, provers, budget)
}

/// The verdict on a layered program none of whose formulas weighs too much.
fn judge<M: Makes>(
    alloc: Global,
    makes: &M,
    src: &Layered,
    held: &Held,
    list: &List<Condition>,
    provers: &mut Vec<Box<dyn Prover>>,
    budget: u32,
) -> Result<Verdict, Memory>
    requires written { IsTrue (allows_program src.now) }
    requires linear { Keeps linear_rules src.now }
    requires held { held.now.cuts ≡ all_held src.now }
    requires listed { list.now ≡ conditions src.now }
    requires light { heavy src.now ≡ None }
    ensures verdict { IfOk result (IsVerdict src.now budget) }
    ensures searched { IfOk result (λ verdict. Searched src.now verdict budget provers.old.items provers.new.items (record { asked = asked; lacks = lacks; honest = honest; plan = plan })) }
{
    match decide_initial(alloc, makes, src, provers, budget)? {
        Decision::Never => Ok(Verdict::NoInitial),
        Decision::Spent(log) => Ok(Verdict::Undecided(None, log)),
        Decision::At(_store) => {
            let verdict = judge_all(alloc, makes, src, held, list, provers, budget)?;
            Ok(verdict)
        }
    }
}

/// The verdict on a layered program, under a budget of learned clauses for each search: whether some store is initial, and then the
/// conditions in their order, up to the first that doesn't hold or isn't decided. The provers are asked about each, and none is
/// believed without its certificate.
///
/// # Errors
///
/// `Weight` comes exactly where a formula weighs more than 400,000, and has the first, as `conditions` of civl_weights has it; no
/// prover is asked then. `Memory` comes where memory is wanting. Nothing is said of the provers then.
pub fn verify<M: Makes>(
    alloc: Global,
    makes: &M,
    src: &Layered,
    held: &Held,
    provers: &mut Vec<Box<dyn Prover>>,
    budget: u32,
) -> Result<Verdict, TooMuch>
    requires written { IsTrue (allows_program src.now) }
    requires linear { Keeps linear_rules src.now }
    requires held { held.now.cuts ≡ all_held src.now }
    ensures verdict { IfOk result (IsVerdict src.now budget) }
    ensures light { IfOk result (λ verdict. heavy src.now ≡ None) }
    ensures heavy { IfErr result (IsHeavy (heavy src.now)) }
    ensures unasked { IfErr result (UnaskedWhereHeavy provers.old.items provers.new.items) }
    ensures searched { IfOk result (λ verdict. Searched src.now verdict budget provers.old.items provers.new.items (record { asked = asked; lacks = lacks; honest = honest; plan = plan })) }
{
    let list = weighed_conditions(alloc, src, held)?;
    match judge(alloc, makes, src, held, &list, provers, budget) {
        Ok(verdict) => Ok(verdict),
        Err(Memory) => Err(TooMuch::Memory),
    }
}
