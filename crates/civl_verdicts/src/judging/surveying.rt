// What is found of all conditions of a layered program.
ghost use Rattle.std.specs.Prelude.{◌≡◌, ◌≤◌, None, IsTrue, IfOk, IfErr, length};
ghost use Rattle.std.specs.List.{Contains};
ghost use Rattle.civl_tree.specs.SpellingDomain.{allows_program};
ghost use Rattle.civl_tree.specs.rules.Rules.{Keeps};
ghost use Rattle.civl_linear.specs.LinearRules.{linear_rules};
ghost use Rattle.civl_linear.specs.Cuts.{all_held};
ghost use Rattle.civl_bodies.specs.Bodies.{AreBodies};
ghost use Rattle.civl_conditions.specs.Listed.{conditions};
ghost use Rattle.civl_conditions.specs.Weights.{weight, weight_limit, heavy};
ghost use Rattle.civl_weights.specs.Heavy.{IsHeavy};
ghost use Rattle.civl_verdicts.specs.Surveys.{IsFound, AreFound, IsSurvey};
ghost use Rattle.civl_verdicts.specs.decisions.Decided.{WasAsked, WereAsked};
ghost use Rattle.civl_verdicts.specs.judging.Searches.{SurveyedBy, UnaskedWhereHeavy};

use crate::decisions::Decision;
use crate::judging::formula::Makes;
use crate::judging::memory::Memory;
use crate::judging::verifying::{decide_initial, decide_violation};
use crate::{Counter, Found, Survey};
use civl_bodies::{Bodies, bodies_of};
use civl_conditions::Condition;
use civl_layers::{Held, Layered};
use civl_portfolio::Prover;
use civl_tree::List;
use civl_weights::{TooMuch, conditions as weighed_conditions};
use std::alloc::Global;

/// What is found of a condition.
fn find<M: Makes>(
    alloc: Global,
    makes: &M,
    src: &Layered,
    held: &Held,
    bodies: &Bodies<'_>,
    condition: &Condition,
    provers: &mut Vec<Box<dyn Prover>>,
    budget: u32,
) -> Result<Found, Memory>
    requires written { IsTrue (allows_program src.now) }
    requires linear { Keeps linear_rules src.now }
    requires held { held.now.cuts ≡ all_held src.now }
    requires bodies { AreBodies src.now bodies.now }
    requires listed { Contains (conditions src.now) condition.now }
    requires light { weight src.now condition.now ≤ weight_limit }
    ensures found { IfOk result (IsFound src.now budget condition.now) }
    ensures asked { IfOk result (λ found. WasAsked provers.old.items provers.new.items budget (record { asked = asked; lacks = lacks; honest = honest; plan = plan })) }
{
    match decide_violation(alloc, makes, src, held, bodies, condition, provers, budget)? {
        Decision::Never => Ok(Found::Holds),
        Decision::At(values) => {
            let condition = *condition;
            Ok(Found::Fails(Counter { condition, values }))
        }
        Decision::Spent(log) => Ok(Found::Undecided(log)),
    }
}

/// What is found of each condition, in the order of the list.
fn find_each<M: Makes>(
    alloc: Global,
    makes: &M,
    src: &Layered,
    held: &Held,
    bodies: &Bodies<'_>,
    list: &List<Condition>,
    provers: &mut Vec<Box<dyn Prover>>,
    budget: u32,
) -> Result<List<Found>, Memory>
    requires written { IsTrue (allows_program src.now) }
    requires linear { Keeps linear_rules src.now }
    requires held { held.now.cuts ≡ all_held src.now }
    requires bodies { AreBodies src.now bodies.now }
    requires listed { list.now ≡ conditions src.now }
    requires light { heavy src.now ≡ None }
    ensures found { IfOk result (AreFound src.now budget list.now) }
    ensures asked { IfOk result (λ found. WereAsked provers.old.items provers.new.items (length list.now) budget (record { asked = asked; lacks = lacks; honest = honest; plan = plan })) }
{
    let mut findings = Vec::new(alloc);
    for condition in list.as_slice() {
        let found = find(alloc, makes, src, held, bodies, condition, provers, budget)?;
        findings.push(found)?;
    }
    Ok(List::from_vec(findings))
}

/// The same, with the table of the program's bodies made once.
fn find_all<M: Makes>(
    alloc: Global,
    makes: &M,
    src: &Layered,
    held: &Held,
    list: &List<Condition>,
    provers: &mut Vec<Box<dyn Prover>>,
    budget: u32,
) -> Result<List<Found>, Memory>
    requires written { IsTrue (allows_program src.now) }
    requires linear { Keeps linear_rules src.now }
    requires held { held.now.cuts ≡ all_held src.now }
    requires listed { list.now ≡ conditions src.now }
    requires light { heavy src.now ≡ None }
    ensures found { IfOk result (AreFound src.now budget list.now) }
    ensures asked { IfOk result (λ found. WereAsked provers.old.items provers.new.items (length list.now) budget (record { asked = asked; lacks = lacks; honest = honest; plan = plan })) }
{
    let bodies = bodies_of(alloc, src)?;
    find_each(alloc, makes, src, held, &bodies, list, provers, budget)
}

/// What is found of a layered program none of whose formulas weighs too much.
fn look<M: Makes>(
    alloc: Global,
    makes: &M,
    src: &Layered,
    held: &Held,
    list: &List<Condition>,
    provers: &mut Vec<Box<dyn Prover>>,
    budget: u32,
) -> Result<Survey, Memory>
    requires written { IsTrue (allows_program src.now) }
    requires linear { Keeps linear_rules src.now }
    requires held { held.now.cuts ≡ all_held src.now }
    requires listed { list.now ≡ conditions src.now }
    requires light { heavy src.now ≡ None }
    ensures survey { IfOk result (IsSurvey src.now budget) }
    ensures searched { IfOk result (λ survey. SurveyedBy src.now survey budget provers.old.items provers.new.items (record { asked = asked; lacks = lacks; honest = honest; plan = plan })) }
{
    match decide_initial(alloc, makes, src, provers, budget)? {
        Decision::Never => Ok(Survey::NoInitial),
        Decision::At(_store) => {
            let findings = find_all(alloc, makes, src, held, list, provers, budget)?;
            Ok(Survey::Findings(None, findings))
        }
        Decision::Spent(log) => {
            let findings = find_all(alloc, makes, src, held, list, provers, budget)?;
            Ok(Survey::Findings(Some(log), findings))
        }
    }
}

/// What is found of each condition of a layered program, in the order of the list, under a budget of learned clauses for each
/// search, behind the search for an initial store. The provers are asked about each, and none is believed without its certificate.
///
/// # Errors
///
/// `Weight` comes exactly where a formula weighs more than 400,000, and has the first, as `conditions` of civl_weights has it; no
/// prover is asked then. `Memory` comes where memory is wanting. Nothing is said of the provers then.
pub fn survey<M: Makes>(
    alloc: Global,
    makes: &M,
    src: &Layered,
    held: &Held,
    provers: &mut Vec<Box<dyn Prover>>,
    budget: u32,
) -> Result<Survey, TooMuch>
    requires written { IsTrue (allows_program src.now) }
    requires linear { Keeps linear_rules src.now }
    requires held { held.now.cuts ≡ all_held src.now }
    ensures survey { IfOk result (IsSurvey src.now budget) }
    ensures light { IfOk result (λ survey. heavy src.now ≡ None) }
    ensures heavy { IfErr result (IsHeavy (heavy src.now)) }
    ensures unasked { IfErr result (UnaskedWhereHeavy provers.old.items provers.new.items) }
    ensures searched { IfOk result (λ survey. SurveyedBy src.now survey budget provers.old.items provers.new.items (record { asked = asked; lacks = lacks; honest = honest; plan = plan })) }
{
    let list = weighed_conditions(alloc, src, held)?;
    match look(alloc, makes, src, held, &list, provers, budget) {
        Ok(survey) => Ok(survey),
        Err(Memory) => Err(TooMuch::Memory),
    }
}
