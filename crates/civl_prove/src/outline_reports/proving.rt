// What is found of a program and an outline of it.
ghost use Rattle.std.specs.Prelude.{◌≡◌, ℕ, ◌+◌, ◌<◌, ◌^◌, None, IsTrue, length, IfOk};
ghost use Rattle.civl_tree.specs.SpellingDomain.{allows_program};
ghost use Rattle.civl_tree.specs.rules.Rules.{Keeps};
ghost use Rattle.civl_linear.specs.LinearRules.{linear_rules};
ghost use Rattle.civl_linear.specs.Cuts.{all_held};
ghost use Rattle.civl_yields.specs.YieldRules.{yield_rules};
ghost use Rattle.civl_conditions.specs.Weights.{heavy as heavy_formula};
ghost use Rattle.civl_verdicts.specs.Verdicts.{IsVerdict};
ghost use Rattle.civl_verdicts.specs.declared.verdict.Verdict.TheVariants.{Accepted};
ghost use Rattle.civl_goals.specs.Weights.{heavy as heavy_goal};
ghost use Rattle.civl_outlined.specs.Outlined.{Fits};
ghost use Rattle.civl_prove.specs.outline_reports.Proving.{IsProving, SearchedBy, GoalsSearchedBy, IsRefusal};

use crate::{Proved, prove};
use civl_conditions::Condition;
use civl_goals::Goal;
use civl_layers::{Held, Layered};
use civl_outlined::{OutlineFault, outlined};
use civl_outlines::Outline;
use civl_portfolio::Prover;
use civl_tree::Memory;
use civl_verdicts::Verdict;
use civl_verdicts::judging::{Makes, verify};
use civl_weights::{TooMuch, conditions as weighed_conditions};
use std::alloc::Global;

/// What is found of a layered program and an outline of its topmost program.
#[derive(Drop)]
pub enum Proving {
    /// A hold or note doesn't fit, and this is the number of the first.
    Note(u32),
    /// A root calls a root, or a thread or a spawn calls a procedure that refines an action: the first item and statement.
    Roots(u32, u32),
    /// A formula of the program weighs too much, and this is the first: a condition, or the search for an initial store.
    Heavy(Option<Condition>),
    /// A goal weighs too much, and this is the first.
    HeavyGoal(Goal),
    /// The program isn't accepted: this is the verdict on it.
    Judged(Verdict),
    /// The program is accepted, and has so many conditions. This is found of the goals.
    Decided(usize, Proved),
}

/// What is found where the outline fits and this is its first goal that weighs too much: a formula of the program comes first.
fn heavy(
    alloc: Global,
    src: &Layered,
    outline: &Outline,
    held: &Held,
    goal: Goal,
) -> Result<Proving, Memory>
    requires held { held.now.cuts ≡ all_held src.now }
    requires fits { Fits src.now outline.now }
    requires heavy { heavy_goal src.now outline.now ≡ Some goal }
    ensures proving { IfOk result (λ proving. (budget : ℕ) → IsProving src.now outline.now budget proving) }
    ensures refusal { IfOk result IsRefusal }
{
    match weighed_conditions(alloc, src, held) {
        Ok(_conditions) => Ok(Proving::HeavyGoal(goal)),
        Err(TooMuch::Weight(formula)) => Ok(Proving::Heavy(formula)),
        Err(TooMuch::Memory) => Err(Memory),
    }
}

/// What is found of the goals of an outline that fits, none of which weighs too much, where the program is accepted and has so many
/// conditions.
fn decide_goals(
    alloc: Global,
    src: &Layered,
    outline: &Outline,
    count: usize,
    provers: &mut Vec<Box<dyn Prover>>,
    budget: u32,
) -> Result<Proving, Memory>
    requires written { IsTrue (allows_program src.now) }
    requires yields { Keeps yield_rules src.now }
    requires few { length outline.now.holds + length outline.now.notes < 2 ^ 32 }
    requires fits { Fits src.now outline.now }
    requires light { heavy_formula src.now ≡ None }
    requires light_goals { heavy_goal src.now outline.now ≡ None }
    requires accepted { IsVerdict src.now budget (Accepted count) }
    ensures proving { IfOk result (IsProving src.now outline.now budget) }
    ensures searched { IfOk result (λ proving. GoalsSearchedBy src.now outline.now count proving budget provers.old.items provers.new.items (record { asked = asked; lacks = lacks; honest = honest; plan = plan })) }
{
    match prove(alloc, src, outline, provers, budget) {
        Ok(proved) => Ok(Proving::Decided(count, proved)),
        Err(OutlineFault::Note(number)) => Ok(Proving::Note(number)),
        Err(OutlineFault::Roots(item, statement)) => Ok(Proving::Roots(item, statement)),
        Err(OutlineFault::Heavy(goal)) => Ok(Proving::HeavyGoal(goal)),
        Err(OutlineFault::Memory) => Err(Memory),
    }
}

/// What is found of a program and an outline that fits and none of whose goals weighs too much: the verdict on the program, and where
/// that is acceptance, what is found of the goals.
fn judge<M: Makes>(
    alloc: Global,
    makes: &M,
    src: &Layered,
    held: &Held,
    outline: &Outline,
    provers: &mut Vec<Box<dyn Prover>>,
    budget: u32,
) -> Result<Proving, Memory>
    requires written { IsTrue (allows_program src.now) }
    requires linear { Keeps linear_rules src.now }
    requires yields { Keeps yield_rules src.now }
    requires held { held.now.cuts ≡ all_held src.now }
    requires few { length outline.now.holds + length outline.now.notes < 2 ^ 32 }
    requires fits { Fits src.now outline.now }
    requires light { heavy_goal src.now outline.now ≡ None }
    ensures proving { IfOk result (IsProving src.now outline.now budget) }
    ensures searched { IfOk result (λ proving. SearchedBy src.now outline.now proving budget provers.old.items provers.new.items (record { asked = asked; lacks = lacks; honest = honest; plan = plan })) }
{
    match verify(alloc, makes, src, held, provers, budget) {
        Ok(Verdict::Accepted(count)) => {
            let proving = decide_goals(alloc, src, outline, count, provers, budget)?;
            Ok(proving)
        }
        Ok(verdict) => Ok(Proving::Judged(verdict)),
        Err(TooMuch::Weight(first)) => Ok(Proving::Heavy(first)),
        Err(TooMuch::Memory) => Err(Memory),
    }
}

/// What is found of a layered program and an outline of its topmost program, under a budget of learned clauses for each search. The
/// program can be spelled and keeps the rules on linear permissions and on yields; the outline has fewer than 2^32 holds and notes
/// together, and its own program isn't looked at.
///
/// First comes what refuses them: a hold or note that doesn't fit, a place at which the topmost program calls a root or runs another
/// procedure, a formula of the program that weighs more than 400,000, and a goal that does. Then the verdict on the program. Where this
/// is acceptance, the goals are decided in their order, up to the first that doesn't hold or isn't decided. The provers are asked about
/// each formula, and none is believed without its certificate.
///
/// # Errors
///
/// For want of memory. Nothing is said of the provers then.
pub fn prove_outline<M: Makes>(
    alloc: Global,
    makes: &M,
    src: &Layered,
    held: &Held,
    outline: &Outline,
    provers: &mut Vec<Box<dyn Prover>>,
    budget: u32,
) -> Result<Proving, Memory>
    requires written { IsTrue (allows_program src.now) }
    requires linear { Keeps linear_rules src.now }
    requires yields { Keeps yield_rules src.now }
    requires held { held.now.cuts ≡ all_held src.now }
    requires few { length outline.now.holds + length outline.now.notes < 2 ^ 32 }
    ensures proving { IfOk result (IsProving src.now outline.now budget) }
    ensures searched { IfOk result (λ proving. SearchedBy src.now outline.now proving budget provers.old.items provers.new.items (record { asked = asked; lacks = lacks; honest = honest; plan = plan })) }
{
    match outlined(alloc, src, outline) {
        Ok(_goals) => judge(alloc, makes, src, held, outline, provers, budget),
        Err(OutlineFault::Note(first)) => Ok(Proving::Note(first)),
        Err(OutlineFault::Roots(item, at)) => Ok(Proving::Roots(item, at)),
        Err(OutlineFault::Heavy(goal)) => {
            let proving = heavy(alloc, src, outline, held, goal)?;
            Ok(proving)
        }
        Err(OutlineFault::Memory) => Err(Memory),
    }
}
