// The check of a program against the rules on layers.
ghost use Rattle.std.specs.Prelude.{◌≡◌, IfOk, IfErr};
ghost use Rattle.civl_tree.specs.Numbered.{IsNumbered};
ghost use Rattle.civl_tree.specs.rules.Rules.{refusal_by, Keeps};
ghost use Rattle.civl_tree.specs.rules.Broken.{IsRefusal};
ghost use Rattle.civl_layers.specs.LayerRules.{layer_rules};
ghost use Rattle.civl_layers.specs.Layered.{IsAt, IsAtFirst};

use crate::rule::LayerRule;
use crate::source::Layered;
use civl_names::walks::first_broken;
use civl_tree::{Program, Refusal, Refused};
use civl_types::Typed;

/// The refusal of the first of the rules that is broken.
#[tactic(auto, using(civl_names::proofs::walks::Placing::of_rules))]
fn first_of_rules(program: &Program) -> Option<Refusal>
    requires { IsNumbered program.now }
    ensures { result ≡ refusal_by layer_rules program.now }
{
    if let Some(refusal) = first_broken(&LayerRule::Range, program) {
        return Some(refusal);
    }
    if let Some(refusal) = first_broken(&LayerRule::Hidden, program) {
        return Some(refusal);
    }
    if let Some(refusal) = first_broken(&LayerRule::NotBelow, program) {
        return Some(refusal);
    }
    if let Some(refusal) = first_broken(&LayerRule::NotThere, program) {
        return Some(refusal);
    }
    if let Some(refusal) = first_broken(&LayerRule::Signature, program) {
        return Some(refusal);
    }
    first_broken(&LayerRule::Introduced, program)
}

/// The first of the rules E30 to E35, by code, item and statement, that a program breaks, with its place, or `None`
/// where it breaks none. The program has fewer than 2^32 items, and each procedure fewer than 2^32 statements. It takes
/// no memory.
///
/// A name that isn't declared breaks none of these rules: that is E11, which comes before.
#[tactic(auto, using(crate::proofs::Answering::layers_are_answered))]
pub fn refusal(program: &Program) -> Option<Refusal>
    requires { IsNumbered program.now }
    ensures same { result ≡ refusal_by layer_rules program.now }
    ensures first { IsRefusal layer_rules program.now result }
{
    first_of_rules(program)
}

/// Takes a program that keeps the rules E30 to E35 too.
///
/// # Errors
///
/// `At` has the first of these rules that the program breaks, by code, item and statement; the program is dropped. It takes
/// no memory, so there is no `Memory`.
pub fn layered(typed: Typed) -> Result<Layered, Refused>
    ensures same { IfOk result (λ src. src ≡ typed) }
    ensures passed { IfOk result (λ src. Keeps layer_rules typed) }
    ensures refused { IfErr result (λ refused. IsAt (refusal_by layer_rules typed) refused) }
    ensures first { IfErr result (λ refused. IsAtFirst layer_rules typed refused) }
{
    let program = civl_types::into_program(typed);
    match refusal(&program) {
        None => Ok(Layered::new(program)),
        Some(refusal) => Err(Refused::At(refusal)),
    }
}
