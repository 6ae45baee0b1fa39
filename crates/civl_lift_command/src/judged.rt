// What is written of each outcome.
ghost use Rattle.std.specs.Prelude.{◌≡◌};
ghost use Rattle.civl_frontend.specs.Report.{bytes_of};
ghost use Rattle.civl_frontend.specs.Told.{IsJudged};
ghost use Rattle.civl_lift_command.specs.Report.{usage_text};
ghost use Rattle.civl_lift_command.specs.Outcome.{TooLong, Unread, Broken, Heavy, Judged as JudgedBy, Misfit, NotInitial, NotFailing, Lifted, Spent, telling};

use crate::report::{report_lifted, report_not_failing, report_spent};
use civl_conditions::Condition;
use civl_frontend::{
    Fault, Judged, Report, Status, report_fault, report_long, report_misfit, report_refusal,
    verdict_status,
};
use civl_layers::Layered;
use civl_meaning::Move;
use civl_tree::{List, Refusal};
use civl_verdicts::Verdict;
use civl_verdicts::reports::report_heavy;
use civl_verdicts::verdict_reports::report_verdict;
use std::alloc::Global;

/// What is written where the words are no command's.
pub(crate) fn usage() -> Judged
    ensures status { result.status ≡ Status.Usage }
    ensures report { bytes_of result.report ≡ usage_text }
{
    Judged {
        status: Status::Usage,
        report: Report::Fixed(b"usage: civl_lift lift [--budget N]\n"),
    }
}

/// What is written of a text that is longer than it may be.
pub(crate) fn too_long(alloc: Global, most: usize) -> Judged
    ensures { IsJudged telling (λ outcome. outcome ≡ TooLong most) result }
{
    let Ok(report) = report_long(alloc, most) else {
        return Judged::wanting();
    };
    Judged {
        status: Status::Refused,
        report: Report::Made(report),
    }
}

/// What is written of the first fault of a text.
pub(crate) fn judge_fault(alloc: Global, fault: Fault) -> Judged
    ensures { IsJudged telling (λ outcome. outcome ≡ Unread fault) result }
{
    let Ok(report) = report_fault(alloc, fault) else {
        return Judged::wanting();
    };
    Judged {
        status: Status::Refused,
        report: Report::Made(report),
    }
}

/// What is written of a program that breaks a static rule.
pub(crate) fn refuse(alloc: Global, refusal: Refusal) -> Judged
    ensures { IsJudged telling (λ outcome. outcome ≡ Broken refusal) result }
{
    let Ok(report) = report_refusal(alloc, refusal) else {
        return Judged::wanting();
    };
    Judged {
        status: Status::Refused,
        report: Report::Made(report),
    }
}

/// What is written of a program one of whose formulas weighs too much.
pub(crate) fn too_heavy(alloc: Global, src: &Layered, formula: Option<Condition>) -> Judged
    ensures { IsJudged telling (λ outcome. outcome ≡ Heavy src.now formula) result }
{
    let Ok(report) = report_heavy(alloc, src, formula) else {
        return Judged::wanting();
    };
    Judged {
        status: Status::Refused,
        report: Report::Made(report),
    }
}

/// What is written of a verdict.
pub(crate) fn decided(alloc: Global, src: &Layered, budget: u32, verdict: &Verdict) -> Judged
    ensures { IsJudged telling (λ outcome. outcome ≡ JudgedBy src.now budget verdict.now) result }
{
    let Ok(report) = report_verdict(alloc, src, budget, verdict) else {
        return Judged::wanting();
    };
    Judged {
        status: verdict_status(verdict),
        report: Report::Made(report),
    }
}

/// What is written where an entry or a move doesn't fit.
pub(crate) fn misfit(alloc: Global, number: usize) -> Judged
    ensures { IsJudged telling (λ outcome. outcome ≡ Misfit number) result }
{
    let Ok(report) = report_misfit(alloc, number) else {
        return Judged::wanting();
    };
    Judged {
        status: Status::Refused,
        report: Report::Made(report),
    }
}

/// What is written of a store that isn't initial.
pub(crate) fn not_initial() -> Judged
    ensures { IsJudged telling (λ outcome. outcome ≡ NotInitial) result }
{
    Judged {
        status: Status::Refused,
        report: Report::Fixed(b"refused E83 at store\n"),
    }
}

/// What is written of moves that don't run to a failing configuration, by how many are made.
pub(crate) fn not_failing(alloc: Global, moved: usize) -> Judged
    ensures { IsJudged telling (λ outcome. outcome ≡ NotFailing moved) result }
{
    let Ok(report) = report_not_failing(alloc, moved) else {
        return Judged::wanting();
    };
    Judged {
        status: Status::Refused,
        report: Report::Made(report),
    }
}

/// What is written of moves that were lifted, at whose end this is the least thread that fails.
pub(crate) fn lifted(alloc: Global, moves: &List<Move>, thread: u32) -> Judged
    ensures { IsJudged telling (λ outcome. outcome ≡ Lifted moves.now thread) result }
{
    let Ok(report) = report_lifted(alloc, moves, thread) else {
        return Judged::wanting();
    };
    Judged {
        status: Status::Done,
        report: Report::Made(report),
    }
}

/// What is written of a block that isn't ended at a step between layers.
pub(crate) fn spent(alloc: Global, step: u32, thread: u32) -> Judged
    ensures { IsJudged telling (λ outcome. outcome ≡ Spent step thread) result }
{
    let Ok(report) = report_spent(alloc, step, thread) else {
        return Judged::wanting();
    };
    Judged {
        status: Status::Undecided,
        report: Report::Made(report),
    }
}
