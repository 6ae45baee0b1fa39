// Texts of programs that keep all static rules.
ghost use Rattle.std.specs.Prelude.{◌≡◌, ◌≤◌, ◌<◌, ◌^◌, ◌++◌, length, Ok, IsTrue, IfOk, IfErr};
ghost use Rattle.civl_tree.specs.Numbered.{IsNumbered};
ghost use Rattle.civl_tree.specs.SpellingDomain.{allows_program};
ghost use Rattle.civl_tree.specs.SpellingProgram.{spell_program};
ghost use Rattle.civl_frontend.specs.Rules.{IsLawful, static_refusal};
ghost use Rattle.civl_explain_command.specs.Outcome.{Broken};
ghost use Rattle.civl_explain_command.specs.Judge.{IsJudged};
ghost use Rattle.civl_explain_command.specs.Told.{IsTold};
ghost use Rattle.civl_explain_command.specs.inner.Read.{IsBroken};

use crate::judged::{Input, all_tokens, refused};
use civl_frontend::{Judged, admitted, report_refusal};
use civl_lines::Text;
use civl_refusals::put_refusal;
use civl_tree::{Memory, Program, Refusal, Refused, copy_program};
use civl_yields::verify::Admitted;
use std::alloc::Global;

/// The report of a program that breaks a static rule.
fn report_broken(
    alloc: Global,
    input: &Input<'_>,
    program: &Program,
    refusal: Refusal,
) -> Result<Vec<u8>, Memory>
    requires short { length (spell_program program.now) < 2 ^ 64 }
    ensures { IfOk result (λ out. IsTold input.now.kind input.now.manner input.now.bytes.now (Broken program.now refusal) out.items) }
{
    let found = all_tokens(alloc, input.bytes)?;
    let text = Text {
        bytes: input.bytes,
        tokens: found.as_slice(),
    };
    let mut out = report_refusal(alloc, refusal)?;
    put_refusal(alloc, &mut out, input.manner.form, &text, program, refusal)?;
    Ok(out)
}

/// What is written of a program that breaks a static rule.
fn refuse(alloc: Global, input: &Input<'_>, program: &Program, refusal: Refusal) -> Judged
    requires short { length (spell_program program.now) < 2 ^ 64 }
    ensures { IsJudged input.now.kind input.now.manner input.now.bytes.now (λ outcome. outcome ≡ Broken program.now refusal) result }
{
    let Ok(report) = report_broken(alloc, input, program, refusal) else {
        return Judged::wanting();
    };
    refused(report)
}

/// A program that keeps all static rules; else what is written of it.
pub(crate) fn admit(alloc: Global, input: &Input<'_>, program: &Program) -> Result<Admitted, Judged>
    requires numbered { IsNumbered program.now }
    requires short { length (spell_program program.now) < 2 ^ 64 }
    ensures same { IfOk result (λ admitted. admitted ≡ program.now) }
    ensures lawful { IfOk result (λ admitted. IsLawful program.now) }
    ensures refused { IfErr result (IsJudged input.now.kind input.now.manner input.now.bytes.now (IsBroken program.now)) }
{
    let Ok(copy) = copy_program(alloc, program) else {
        return Err(Judged::wanting());
    };
    match admitted(alloc, copy) {
        Ok(admitted) => Ok(admitted),
        Err(Refused::At(refusal)) => Err(refuse(alloc, input, program, refusal)),
        Err(Refused::Memory) => Err(Judged::wanting()),
    }
}
