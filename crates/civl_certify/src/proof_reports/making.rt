// One condition of a program, with a lean certificate.
ghost use Rattle.std.specs.Prelude.{◌≡◌, ◌≤◌, ℕ, IsTrue, length, IfOk};
ghost use Rattle.civl_tree.specs.SpellingDomain.{allows_program};
ghost use Rattle.civl_tree.specs.rules.Rules.{Keeps};
ghost use Rattle.civl_linear.specs.LinearRules.{linear_rules};
ghost use Rattle.civl_linear.specs.Cuts.{all_held};
ghost use Rattle.civl_conditions.specs.Listed.{conditions};
ghost use Rattle.civl_certify.specs.proof_reports.Making.{IsMaking, MadeBy};
ghost use Rattle.civl_certify.specs.inner.proof_reports.Trimmed.{IsRefuting, IsTrimmed, IsUnshown};

use crate::proof_reports::Memory;
use crate::{Certified, Shown, certify};
use civl_conditions::{Condition, listed};
use civl_layers::{Held, Layered};
use civl_portfolio::Prover;
use civl_proofs::trim;
use civl_verdicts::judging::Makes;
use civl_weights::{TooMuch, conditions as weighed_conditions};
use std::alloc::Global;

/// What is found of a layered program and one of its conditions.
#[derive(Drop)]
pub enum Making {
    /// A formula weighs too much, and this is the first: a condition, or the search for an initial store.
    Heavy(Option<Condition>),
    /// No condition has the number: there are so many.
    Beyond(usize),
    /// This is shown of the condition with the number. Where it holds the log is lean.
    Shown(Condition, Certified),
}

/// The same, with a lean log where the condition holds.
fn trimmed(alloc: Global, shown: Shown) -> Result<Shown, Memory>
    requires { IsRefuting shown }
    ensures { IfOk result (IsTrimmed shown) }
{
    match shown {
        Shown::Holds(cnf, log) => {
            let lean = trim(alloc, &cnf, &log)?;
            Ok(Shown::Holds(cnf, lean))
        }
        Shown::Fails(counter) => Ok(Shown::Fails(counter)),
        Shown::Undecided(log) => Ok(Shown::Undecided(log)),
    }
}

/// What is found where no condition has the number.
fn beyond(alloc: Global, src: &Layered, held: &Held, at: u32) -> Result<Making, Memory>
    requires held { held.now.cuts ≡ all_held src.now }
    requires past { length (conditions src.now) ≤ at }
    ensures making { IfOk result (λ making. (budget : ℕ) → IsMaking src.now budget at making) }
    ensures unshown { IfOk result IsUnshown }
{
    match weighed_conditions(alloc, src, held) {
        Ok(list) => Ok(Making::Beyond(list.len())),
        Err(TooMuch::Weight(first)) => Ok(Making::Heavy(first)),
        Err(TooMuch::Memory) => Err(Memory),
    }
}

/// What is found of a layered program and the condition with this number, from 0, in the order of its list: whether a formula weighs
/// more than 400,000; whether there is such a condition; and what is shown of it, behind the search for an initial store, under a budget
/// of learned clauses for each of the two searches. Where the condition holds, its log is lean: without any one of its clauses it
/// doesn't refute the clause set. The provers are asked about both formulas, and none is believed without its certificate.
///
/// # Errors
///
/// For want of memory. Nothing is said of the provers then.
pub fn make_proof<M: Makes>(
    alloc: Global,
    makes: &M,
    src: &Layered,
    held: &Held,
    provers: &mut Vec<Box<dyn Prover>>,
    budget: u32,
    at: u32,
) -> Result<Making, Memory>
    requires written { IsTrue (allows_program src.now) }
    requires linear { Keeps linear_rules src.now }
    requires held { held.now.cuts ≡ all_held src.now }
    ensures making { IfOk result (IsMaking src.now budget at) }
    ensures searched { IfOk result (λ making. MadeBy making budget provers.old.items provers.new.items (record { asked = asked; lacks = lacks; honest = honest; plan = plan })) }
{
    let list = listed(alloc, src)?;
    if at as usize >= list.len() {
        let making = beyond(alloc, src, held, at)?;
        return Ok(making);
    }
    let condition = list.get(at as usize);
    match certify(alloc, makes, src, held, provers, budget, at) {
        Ok(Certified::NoInitial) => Ok(Making::Shown(*condition, Certified::NoInitial)),
        Ok(Certified::Answer(initial, shown)) => {
            let lean = trimmed(alloc, shown)?;
            Ok(Making::Shown(*condition, Certified::Answer(initial, lean)))
        }
        Err(TooMuch::Weight(first)) => Ok(Making::Heavy(first)),
        Err(TooMuch::Memory) => Err(Memory),
    }
}
