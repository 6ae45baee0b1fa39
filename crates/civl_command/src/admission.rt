// Texts of programs that keep all static rules.
ghost use Rattle.std.specs.Prelude.{◌≤◌, length, Ok, IsTrue, IfOk, IfErr};
ghost use Rattle.civl_tree.specs.SpellingDomain.{allows_program};
ghost use Rattle.civl_frontend.specs.Rules.{IsLawful};
ghost use Rattle.civl_frontend.specs.Texts.{IsReading, limit};
ghost use Rattle.civl_command.specs.Outcome.{Breaks, Finds};
ghost use Rattle.civl_command.specs.Judge.{IsJudged};

use crate::judged::{judge_fault, refuse};
use civl_frontend::{Judged, Text, admitted, read_program};
use civl_tree::Refused;
use civl_yields::verify::Admitted;
use std::alloc::Global;

/// The program that a text spells, where it keeps all static rules. Else what is written of the text.
pub(crate) fn read_admitted(alloc: Global, bytes: &[u8]) -> Result<Admitted, Judged>
    requires { length bytes.now ≤ limit }
    ensures read { IfOk result (λ admitted. IsReading bytes.now (Ok admitted)) }
    ensures lawful { IfOk result (λ admitted. IsLawful admitted) }
    ensures written { IfOk result (λ admitted. IsTrue (allows_program admitted)) }
    ensures refused { IfErr result (IsJudged (Finds IsReading Breaks bytes.now)) }
{
    match read_program(alloc, bytes) {
        Text::Spelled(program) => match admitted(alloc, program) {
            Ok(admitted) => Ok(admitted),
            Err(Refused::At(refusal)) => Err(refuse(alloc, refusal)),
            Err(Refused::Memory) => Err(Judged::wanting()),
        },
        Text::Unread(fault) => Err(judge_fault(alloc, fault)),
        Text::Memory => Err(Judged::wanting()),
    }
}
