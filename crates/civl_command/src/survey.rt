// What is found of the conditions of a program.
ghost use Rattle.std.specs.Prelude.{◌≡◌, ◌≤◌, length, IsTrue};
ghost use Rattle.civl_tree.specs.SpellingDomain.{allows_program};
ghost use Rattle.civl_frontend.specs.Rules.{IsLawful};
ghost use Rattle.civl_frontend.specs.Texts.{IsReading, limit};
ghost use Rattle.civl_command.specs.Outcome.{Surveyed, Surveys, Finds, survey_status};
ghost use Rattle.civl_command.specs.Judge.{IsJudged};

use crate::admission::read_admitted;
use crate::judged::too_heavy;
use civl_frontend::{Judged, Report, Status};
use civl_layers::Layered;
use civl_maker::Maker;
use civl_portfolio::Prover;
use civl_verdicts::Survey;
use civl_verdicts::judging::survey;
use civl_verdicts::reports::report_survey;
use civl_weights::TooMuch;
use civl_yields::verify::{Admitted, locals_held, source};
use std::alloc::Global;

/// The status of a survey.
fn survey_status(survey: &Survey) -> Status
    ensures { result ≡ survey_status survey.now }
{
    match survey {
        Survey::NoInitial => Status::Refused,
        Survey::Findings(_, _) => Status::Done,
    }
}

/// What is written of a survey.
fn surveyed(alloc: Global, src: &Layered, budget: u32, survey: &Survey) -> Judged
    ensures { IsJudged (λ outcome. outcome ≡ Surveyed src.now budget survey.now) result }
{
    let Ok(report) = report_survey(alloc, src, budget, survey) else {
        return Judged::wanting();
    };
    Judged {
        status: survey_status(survey),
        report: Report::Made(report),
    }
}

/// What `conditions` finds of a program that breaks no static rule.
fn survey_admitted(
    alloc: Global,
    budget: u32,
    admitted: &Admitted,
    provers: &mut Vec<Box<dyn Prover>>,
) -> Judged
    requires rules { IsLawful admitted.now }
    requires written { IsTrue (allows_program admitted.now) }
    ensures { IsJudged (Surveys budget admitted.now) result }
{
    let src = source(admitted);
    match survey(alloc, &Maker, src, locals_held(admitted), provers, budget) {
        Ok(found) => surveyed(alloc, src, budget, &found),
        Err(TooMuch::Weight(formula)) => too_heavy(alloc, src, formula),
        Err(TooMuch::Memory) => Judged::wanting(),
    }
}

/// What `conditions` finds of a text.
pub(crate) fn survey_text(
    alloc: Global,
    budget: u32,
    bytes: &[u8],
    provers: &mut Vec<Box<dyn Prover>>,
) -> Judged
    requires { length bytes.now ≤ limit }
    ensures { IsJudged (Finds IsReading (Surveys budget) bytes.now) result }
{
    match read_admitted(alloc, bytes) {
        Ok(admitted) => survey_admitted(alloc, budget, &admitted, provers),
        Err(judged) => judged,
    }
}
