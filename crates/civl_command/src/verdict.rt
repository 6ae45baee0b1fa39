// The verdict on a program.
ghost use Rattle.std.specs.Prelude.{◌≡◌, ◌≤◌, length, IsTrue};
ghost use Rattle.civl_tree.specs.SpellingDomain.{allows_program};
ghost use Rattle.civl_frontend.specs.Rules.{IsLawful};
ghost use Rattle.civl_frontend.specs.Texts.{IsReading, limit};
ghost use Rattle.civl_command.specs.Outcome.{Judged as JudgedBy, Checks, Finds};
ghost use Rattle.civl_command.specs.Judge.{IsJudged};

use crate::admission::read_admitted;
use crate::judged::too_heavy;
use civl_frontend::{Judged, Report, verdict_status};
use civl_layers::Layered;
use civl_maker::Maker;
use civl_portfolio::Prover;
use civl_verdicts::Verdict;
use civl_verdicts::judging::verify;
use civl_verdicts::verdict_reports::report_verdict;
use civl_weights::TooMuch;
use civl_yields::verify::{Admitted, locals_held, source};
use std::alloc::Global;

/// What is written of a verdict.
fn decided(alloc: Global, src: &Layered, budget: u32, verdict: &Verdict) -> Judged
    ensures { IsJudged (λ outcome. outcome ≡ JudgedBy src.now budget verdict.now) result }
{
    let Ok(report) = report_verdict(alloc, src, budget, verdict) else {
        return Judged::wanting();
    };
    Judged {
        status: verdict_status(verdict),
        report: Report::Made(report),
    }
}

/// What `check` finds of a program that breaks no static rule.
fn check_admitted(
    alloc: Global,
    budget: u32,
    admitted: &Admitted,
    provers: &mut Vec<Box<dyn Prover>>,
) -> Judged
    requires rules { IsLawful admitted.now }
    requires written { IsTrue (allows_program admitted.now) }
    ensures { IsJudged (Checks budget admitted.now) result }
{
    let src = source(admitted);
    match verify(alloc, &Maker, src, locals_held(admitted), provers, budget) {
        Ok(verdict) => decided(alloc, src, budget, &verdict),
        Err(TooMuch::Weight(formula)) => too_heavy(alloc, src, formula),
        Err(TooMuch::Memory) => Judged::wanting(),
    }
}

/// What `check` finds of a text.
pub(crate) fn check_text(
    alloc: Global,
    budget: u32,
    bytes: &[u8],
    provers: &mut Vec<Box<dyn Prover>>,
) -> Judged
    requires { length bytes.now ≤ limit }
    ensures { IsJudged (Finds IsReading (Checks budget) bytes.now) result }
{
    match read_admitted(alloc, bytes) {
        Ok(admitted) => check_admitted(alloc, budget, &admitted, provers),
        Err(judged) => judged,
    }
}
