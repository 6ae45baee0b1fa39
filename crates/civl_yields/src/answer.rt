// The check of a program against the rules on yields and movers.
ghost use Rattle.std.specs.Prelude.{◌≡◌, map, IfOk, IfErr};
ghost use Rattle.civl_tree.specs.Numbered.{IsNumbered};
ghost use Rattle.civl_tree.specs.rules.Rules.{refusal_by, Keeps};
ghost use Rattle.civl_tree.specs.rules.Broken.{IsRefusal};
ghost use Rattle.civl_types.specs.Checked.{IsCause, IsFirstCause};
ghost use Rattle.civl_yields.specs.YieldRules.{yield_rules};
ghost use Rattle.civl_yields.specs.Phases.{phases_of};

use crate::finders::{LateCalls, MisplacedStatements, NestedLoops};
use crate::items::StrayWords;
use crate::listing::{Phases, phases_in};
use civl_layers::{Layered, program};
use civl_names::walks::{first_broken, first_in_procs};
use civl_tree::{Memory, Program, Refusal, Refused};
use std::alloc::Global;

/// The refusal of the first of the rules that is broken.
#[tactic(auto, using(crate::proofs::Answering::yields_in_parts))]
fn first_of_rules(alloc: Global, program: &Program) -> Result<Option<Refusal>, Memory>
    requires { IsNumbered program.now }
    ensures { IfOk result (λ refusal. refusal ≡ refusal_by yield_rules program.now) }
{
    if let Some(refusal) = first_in_procs(alloc, &LateCalls, program)? {
        return Ok(Some(refusal));
    }
    if let Some(refusal) = first_in_procs(alloc, &NestedLoops, program)? {
        return Ok(Some(refusal));
    }
    if let Some(refusal) = first_in_procs(alloc, &MisplacedStatements, program)? {
        return Ok(Some(refusal));
    }
    Ok(first_broken(&StrayWords, program))
}

/// The first of the rules E50 to E53, by code, item and statement, that a program breaks, with its place, or `None` where
/// it breaks none. The program has fewer than 2^32 items, and each procedure fewer than 2^32 statements.
///
/// # Errors
///
/// For want of memory, for the lists of statements of a procedure.
#[tactic(auto, using(crate::proofs::Answering::is_answer))]
pub fn refusal(alloc: Global, program: &Program) -> Result<Option<Refusal>, Memory>
    requires { IsNumbered program.now }
    ensures same { IfOk result (λ refusal. refusal ≡ refusal_by yield_rules program.now) }
    ensures first { IfOk result (λ refusal. IsRefusal yield_rules program.now refusal) }
{
    first_of_rules(alloc, program)
}

/// The phases before the calls of a layered program that keeps the rules E50 to E53: for each procedure and each of its
/// call statements in text order, whether the block may have passed its turning point before it; nothing for a root.
///
/// The phase of a block is that of Lipton's reduction: right movers up to the turning point, left movers from there on.
///
/// # Errors
///
/// `At` has the first of these rules that the program breaks, by code, item and statement. `Memory` comes where memory is
/// wanting.
pub fn phases(alloc: Global, src: &Layered) -> Result<Phases, Refused>
    ensures phases { IfOk result (λ phases. phases.left ≡ map (phases_of src.now) src.now.procs) }
    ensures passed { IfOk result (λ phases. Keeps yield_rules src.now) }
    ensures refused { IfErr result (λ refused. IsCause (refusal_by yield_rules src.now) refused) }
    ensures first { IfErr result (λ refused. IsFirstCause yield_rules src.now refused) }
{
    let program = program(src);
    match refusal(alloc, program) {
        Ok(None) => match phases_in(alloc, program) {
            Ok(phases) => Ok(phases),
            Err(Memory) => Err(Refused::Memory),
        },
        Ok(Some(refusal)) => Err(Refused::At(refusal)),
        Err(Memory) => Err(Refused::Memory),
    }
}
