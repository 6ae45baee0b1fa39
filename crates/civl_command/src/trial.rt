// The verdict on a trial program.
ghost use Rattle.std.specs.Prelude.{◌≡◌, IfOk};
ghost use Rattle.civl_words.specs.Words.{usual_budget};
ghost use Rattle.civl_trial.specs.Trial.{IsTrialNumber};
ghost use Rattle.civl_command.specs.Outcome.{CallsFor, TrialCallsFor, trial_text};
ghost use Rattle.civl_command.specs.Judge.{IsJudged, IsTried};
ghost use Rattle.civl_command.specs.declared.task.Task.TheVariants.{Check};

use crate::judged::too_long;
use crate::report::report_trial;
use crate::verdict::check_text;
use civl_frontend::{Judged, LIMIT, Report};
use civl_portfolio::Prover;
use civl_printer::print;
use civl_tree::Memory;
use civl_trial::trial;
use civl_words::USUAL_BUDGET;
use std::alloc::Global;

/// The text of the trial program of so many copies.
fn text_of(alloc: Global, number: u32) -> Result<Vec<u8>, Memory>
    requires { IsTrialNumber number }
    ensures { IfOk result (λ text. text.items ≡ trial_text number) }
{
    let program = trial(alloc, number)?;
    let text = print(alloc, &program)?;
    Ok(text)
}

/// What `check` finds of a text of any length, with the usual budget.
fn check_usually(alloc: Global, bytes: &[u8], provers: &mut Vec<Box<dyn Prover>>) -> Judged
    ensures { IsJudged (CallsFor (Check usual_budget) bytes.now) result }
{
    if bytes.len() > LIMIT {
        return too_long(alloc, LIMIT);
    }
    check_text(alloc, USUAL_BUDGET, bytes, provers)
}

/// What is written of a trial, by what is found of its text.
fn tried(alloc: Global, number: u32, judged: &Judged) -> Judged
    requires { IsJudged (TrialCallsFor number) judged.now }
    ensures { IsTried number result }
{
    if judged.status.wants_memory() {
        return Judged::wanting();
    }
    let Ok(report) = report_trial(alloc, number, judged.report.as_slice()) else {
        return Judged::wanting();
    };
    Judged {
        status: judged.status,
        report: Report::Made(report),
    }
}

/// What `trial` finds: the line of the trial, and what `check` finds of its text.
pub(crate) fn judge_trial(alloc: Global, number: u32, provers: &mut Vec<Box<dyn Prover>>) -> Judged
    requires { IsTrialNumber number }
    ensures { IsTried number result }
{
    let Ok(text) = text_of(alloc, number) else {
        return Judged::wanting();
    };
    let judged = check_usually(alloc, text.as_slice(), provers);
    tried(alloc, number, &judged)
}
