// The check of a program against the static rules.
ghost use Rattle.std.specs.Prelude.{◌≡◌, [], ◌∷◌, IfOk, IfErr};
ghost use Rattle.civl_tree.specs.Numbered.{IsNumbered};
ghost use Rattle.civl_tree.specs.rules.Rules.{refusal_by, Keeps};
ghost use Rattle.civl_tree.specs.rules.Typing.{typing_rules, count_rule, width_rule, sort_rule, index_rule, arity_rule, store_size_rule};
ghost use Rattle.civl_tree.specs.rules.Broken.{IsRefusal};
ghost use Rattle.civl_types.specs.Checked.{IsCause, IsFirstCause};

use crate::rule::TypingRule;
use crate::typed::Typed;
use civl_names::first_misnamed;
use civl_names::walks::first_broken;
use civl_tree::{Memory, Program, Refusal, Refused};
use std::alloc::Global;

/// The refusal of the first of the rules E12 to E24 that is broken.
#[tactic(auto, using(civl_names::proofs::walks::Placing::of_rules))]
fn first_of_rules(program: &Program) -> Option<Refusal>
    requires { IsNumbered program.now }
    ensures { result ≡ refusal_by (count_rule ∷ width_rule ∷ sort_rule ∷ index_rule ∷ arity_rule ∷ store_size_rule ∷ []) program.now }
{
    if let Some(refusal) = first_broken(&TypingRule::Count, program) {
        return Some(refusal);
    }
    if let Some(refusal) = first_broken(&TypingRule::Width, program) {
        return Some(refusal);
    }
    if let Some(refusal) = first_broken(&TypingRule::Sorts, program) {
        return Some(refusal);
    }
    if let Some(refusal) = first_broken(&TypingRule::Index, program) {
        return Some(refusal);
    }
    if let Some(refusal) = first_broken(&TypingRule::Arity, program) {
        return Some(refusal);
    }
    first_broken(&TypingRule::StoreSize, program)
}

/// The first of the rules E10 to E24, by code, item and statement, that a program breaks, with its place, or `None`
/// where it breaks none. The program has fewer than 2^32 items, and each procedure fewer than 2^32 statements.
///
/// # Errors
///
/// For want of memory: the names that a program declares are kept in sets, which take memory in proportion to their number.
pub fn refusal(alloc: Global, program: &Program) -> Result<Option<Refusal>, Memory>
    requires { IsNumbered program.now }
    ensures same { IfOk result (λ refusal. refusal ≡ refusal_by typing_rules program.now) }
    ensures first { IfOk result (λ refusal. IsRefusal typing_rules program.now refusal) }
{
    if let Some(refusal) = first_misnamed(alloc, program)? {
        return Ok(Some(refusal));
    }
    Ok(first_of_rules(program))
}

/// Takes a program that keeps the rules E10 to E24. The program has fewer than 2^32 items, and each procedure fewer than
/// 2^32 statements.
///
/// # Errors
///
/// `At` has the first of these rules that the program breaks, by code, item and statement; the program is dropped. `Memory`
/// comes where there is no memory for the sets of its names.
pub fn check(alloc: Global, program: Program) -> Result<Typed, Refused>
    requires { IsNumbered program }
    ensures same { IfOk result (λ typed. typed ≡ program) }
    ensures passed { IfOk result (λ typed. Keeps typing_rules program) }
    ensures refused { IfErr result (λ refused. IsCause (refusal_by typing_rules program) refused) }
    ensures first { IfErr result (λ refused. IsFirstCause typing_rules program refused) }
{
    match refusal(alloc, &program) {
        Ok(None) => Ok(Typed::new(program)),
        Ok(Some(refusal)) => Err(Refused::At(refusal)),
        Err(Memory) => Err(Refused::Memory),
    }
}

/// The program that was checked.
pub fn into_program(typed: Typed) -> Program
    ensures same { result ≡ typed }
    ensures keeps { Keeps typing_rules result }
    ensures numbered { IsNumbered result }
{
    typed.into_inner()
}
