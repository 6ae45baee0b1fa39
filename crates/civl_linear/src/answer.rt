// The check of a program against the rules on linear locals.
ghost use Rattle.std.specs.Prelude.{◌≡◌, map, IfOk, IfErr};
ghost use Rattle.civl_tree.specs.Numbered.{IsNumbered};
ghost use Rattle.civl_tree.specs.rules.Rules.{refusal_by, Keeps};
ghost use Rattle.civl_tree.specs.rules.Broken.{IsRefusal};
ghost use Rattle.civl_types.specs.Checked.{IsCause, IsFirstCause};
ghost use Rattle.civl_linear.specs.Cuts.{held_of};
ghost use Rattle.civl_linear.specs.LinearRules.{linear_rules};

use crate::finders::{DoubledLocals, LostLocals, MisassignedNames, UnheldArguments};
use crate::listing::held_in;
use civl_layers::{Held, Layered, program};
use civl_names::walks::first_in_procs;
use civl_tree::{Memory, Program, Refusal, Refused};
use std::alloc::Global;

/// The refusal of the first of the rules that is broken.
#[tactic(auto, using(crate::proofs::Answering::linear_in_parts))]
fn first_of_rules(alloc: Global, program: &Program) -> Result<Option<Refusal>, Memory>
    requires { IsNumbered program.now }
    ensures { IfOk result (λ refusal. refusal ≡ refusal_by linear_rules program.now) }
{
    if let Some(refusal) = first_in_procs(alloc, &UnheldArguments, program)? {
        return Ok(Some(refusal));
    }
    if let Some(refusal) = first_in_procs(alloc, &DoubledLocals, program)? {
        return Ok(Some(refusal));
    }
    if let Some(refusal) = first_in_procs(alloc, &LostLocals, program)? {
        return Ok(Some(refusal));
    }
    first_in_procs(alloc, &MisassignedNames, program)
}

/// The first of the rules E40 to E43, by code, item and statement, that a program breaks, with its place, or `None` where
/// it breaks none. The program has fewer than 2^32 items, and each procedure fewer than 2^32 statements.
///
/// # Errors
///
/// For want of memory, for the lists of statements of a procedure and of what is held before them.
#[tactic(auto, using(crate::proofs::Answering::is_answer))]
pub fn refusal(alloc: Global, program: &Program) -> Result<Option<Refusal>, Memory>
    requires { IsNumbered program.now }
    ensures same { IfOk result (λ refusal. refusal ≡ refusal_by linear_rules program.now) }
    ensures first { IfOk result (λ refusal. IsRefusal linear_rules program.now refusal) }
{
    first_of_rules(alloc, program)
}

/// What is held at the cuts of a layered program that keeps the rules E40 to E43: for each procedure and each of its cuts
/// the numbers of the held locals, rising; nothing for a root. A number counts the procedure's parameters, outputs and
/// locals, in this order, from 0.
///
/// A local is held where the linear value that it stands for is this thread's: the linear permissions of layered programs
/// (Kragl and Qadeer, CAV 2018).
///
/// # Errors
///
/// `At` has the first of these rules that the program breaks, by code, item and statement. `Memory` comes where memory is
/// wanting.
pub fn held(alloc: Global, src: &Layered) -> Result<Held, Refused>
    ensures held { IfOk result (λ held. held.cuts ≡ map (held_of src.now) src.now.procs) }
    ensures passed { IfOk result (λ held. Keeps linear_rules src.now) }
    ensures refused { IfErr result (λ refused. IsCause (refusal_by linear_rules src.now) refused) }
    ensures first { IfErr result (λ refused. IsFirstCause linear_rules src.now refused) }
{
    let program = program(src);
    match refusal(alloc, program) {
        Ok(None) => match held_in(alloc, program) {
            Ok(held) => Ok(held),
            Err(Memory) => Err(Refused::Memory),
        },
        Ok(Some(refusal)) => Err(Refused::At(refusal)),
        Err(Memory) => Err(Refused::Memory),
    }
}
