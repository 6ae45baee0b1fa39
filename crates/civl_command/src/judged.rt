// What is written of a text that is refused, and of words that are no command's.
ghost use Rattle.std.specs.Prelude.{◌≡◌};
ghost use Rattle.civl_frontend.specs.Report.{bytes_of};
ghost use Rattle.civl_command.specs.Outcome.{TooLong, Unread, Broken, Heavy};
ghost use Rattle.civl_command.specs.Judge.{IsJudged, usage_text};

use civl_conditions::Condition;
use civl_frontend::{Fault, Judged, Report, Status, report_fault, report_long, report_refusal};
use civl_layers::Layered;
use civl_tree::Refusal;
use civl_verdicts::reports::report_heavy;
use std::alloc::Global;

/// The most bytes that a certificate may have.
pub(crate) const CERTIFICATE_LIMIT: usize = 67_108_864;

/// What is written where the words are no command's.
pub(crate) fn usage() -> Judged
    ensures status { result.status ≡ Status.Usage }
    ensures report { bytes_of result.report ≡ usage_text }
{
    Judged {
        status: Status::Usage,
        report: Report::Fixed(b"usage: civl check|conditions|fmt|run|trial|prove|proof\n"),
    }
}

/// What is written of a text that is longer than it may be.
pub(crate) fn too_long(alloc: Global, most: usize) -> Judged
    ensures { IsJudged (λ outcome. outcome ≡ TooLong most) result }
{
    let Ok(report) = report_long(alloc, most) else {
        return Judged::wanting();
    };
    Judged {
        status: Status::Refused,
        report: Report::Made(report),
    }
}

/// What is written of the first fault of a text.
pub(crate) fn judge_fault(alloc: Global, fault: Fault) -> Judged
    ensures { IsJudged (λ outcome. outcome ≡ Unread fault) result }
{
    let Ok(report) = report_fault(alloc, fault) else {
        return Judged::wanting();
    };
    Judged {
        status: Status::Refused,
        report: Report::Made(report),
    }
}

/// What is written of a program that breaks a static rule.
pub(crate) fn refuse(alloc: Global, refusal: Refusal) -> Judged
    ensures { IsJudged (λ outcome. outcome ≡ Broken refusal) result }
{
    let Ok(report) = report_refusal(alloc, refusal) else {
        return Judged::wanting();
    };
    Judged {
        status: Status::Refused,
        report: Report::Made(report),
    }
}

/// What is written of a program one of whose formulas weighs too much.
pub(crate) fn too_heavy(alloc: Global, src: &Layered, formula: Option<Condition>) -> Judged
    ensures { IsJudged (λ outcome. outcome ≡ Heavy src.now formula) result }
{
    let Ok(report) = report_heavy(alloc, src, formula) else {
        return Judged::wanting();
    };
    Judged {
        status: Status::Refused,
        report: Report::Made(report),
    }
}
