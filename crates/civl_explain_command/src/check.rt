// The verdict on a program.
ghost use Rattle.std.specs.Prelude.{◌≡◌, ◌≤◌, ◌<◌, ◌^◌, ◌++◌, length, IsTrue, IfOk, OnOk};
ghost use Rattle.civl_tree.specs.Numbered.{IsNumbered};
ghost use Rattle.civl_tree.specs.SpellingDomain.{allows_program};
ghost use Rattle.civl_tree.specs.SpellingProgram.{spell_program};
ghost use Rattle.civl_linear.specs.Cuts.{all_held};
ghost use Rattle.civl_verdicts.specs.Verdicts.{IsVerdict};
ghost use Rattle.civl_frontend.specs.Rules.{IsLawful};
ghost use Rattle.civl_frontend.specs.Texts.{IsReading, limit};
ghost use Rattle.civl_lines.specs.Tokens.{AreTokens};
ghost use Rattle.civl_command.specs.Outcome.{Checks};
ghost use Rattle.civl_explain_command.specs.Outcome.{Explains, Finds, Heavy, Judged as JudgedBy};
ghost use Rattle.civl_explain_command.specs.Told.{IsTold, verdict_behind};
ghost use Rattle.civl_explain_command.specs.Judge.{IsJudged};
ghost use Rattle.civl_explain_command.specs.inner.Read.{IsBroken, TellsBehind};

use crate::admission::admit;
use crate::condition::{Told, put_story};
use crate::judged::{Input, all_tokens, judge_fault, refused};
use civl_conditions::Condition;
use civl_frontend::{Judged, Report, Text as Read, read_program, verdict_status};
use civl_layers::{Layered, program};
use civl_lines::Text;
use civl_maker::Maker;
use civl_portfolio::Prover;
use civl_refusals::{put_heavy, put_no_initial};
use civl_tree::{Memory, Program};
use civl_verdicts::Verdict;
use civl_verdicts::judging::verify;
use civl_verdicts::reports::report_heavy;
use civl_verdicts::verdict_reports::report_verdict;
use civl_weights::TooMuch;
use civl_yields::verify::{Admitted, locals_held, source};
use std::alloc::Global;

/// Puts what stands behind the report of a verdict behind what is there: the story of a rejection, or the place of `init`.
///
/// # Errors
///
/// For want of memory.
pub(crate) fn put_verdict(
    alloc: Global,
    out: &mut Vec<u8>,
    input: &Input<'_>,
    told: &Told<'_>,
    budget: u32,
    verdict: &Verdict,
) -> Result<(), Memory>
    requires verdict { IsVerdict told.now.src.now budget verdict.now }
    requires held { told.now.held.now.cuts ≡ all_held told.now.src.now }
    requires short { length (spell_program told.now.src.now) < 2 ^ 64 }
    ensures { OnOk result (TellsBehind input.now.bytes.now out.old.items out.new.items
        (λ tokens. verdict_behind input.now.manner input.now.bytes.now tokens told.now.src.now verdict.now)) }
{
    let found = all_tokens(alloc, input.bytes)?;
    let text = Text {
        bytes: input.bytes,
        tokens: found.as_slice(),
    };
    match verdict {
        Verdict::Rejected(counter) => put_story(
            alloc,
            out,
            input.manner,
            &text,
            told,
            &counter.condition,
            counter.values.as_slice(),
        ),
        Verdict::NoInitial => put_no_initial(out, input.manner.form, &text, program(told.src)),
        Verdict::Accepted(_) => Ok(()),
        Verdict::Undecided(_, _) => Ok(()),
    }
}

/// The report of a verdict.
fn report_told(
    alloc: Global,
    input: &Input<'_>,
    told: &Told<'_>,
    budget: u32,
    verdict: &Verdict,
) -> Result<Vec<u8>, Memory>
    requires verdict { IsVerdict told.now.src.now budget verdict.now }
    requires held { told.now.held.now.cuts ≡ all_held told.now.src.now }
    requires short { length (spell_program told.now.src.now) < 2 ^ 64 }
    ensures { IfOk result (λ out. IsTold input.now.kind input.now.manner input.now.bytes.now
        (JudgedBy told.now.src.now budget verdict.now) out.items) }
{
    let mut out = report_verdict(alloc, told.src, budget, verdict)?;
    put_verdict(alloc, &mut out, input, told, budget, verdict)?;
    Ok(out)
}

/// What is written of a verdict.
fn decided(
    alloc: Global,
    input: &Input<'_>,
    told: &Told<'_>,
    budget: u32,
    verdict: &Verdict,
) -> Judged
    requires verdict { IsVerdict told.now.src.now budget verdict.now }
    requires held { told.now.held.now.cuts ≡ all_held told.now.src.now }
    requires short { length (spell_program told.now.src.now) < 2 ^ 64 }
    ensures { IsJudged input.now.kind input.now.manner input.now.bytes.now (λ outcome. outcome ≡ JudgedBy told.now.src.now budget verdict.now) result }
{
    let Ok(report) = report_told(alloc, input, told, budget, verdict) else {
        return Judged::wanting();
    };
    Judged {
        status: verdict_status(verdict),
        report: Report::Made(report),
    }
}

/// The report of a program one of whose formulas weighs too much.
fn report_weight(
    alloc: Global,
    input: &Input<'_>,
    src: &Layered,
    formula: Option<Condition>,
) -> Result<Vec<u8>, Memory>
    requires { length (spell_program src.now) < 2 ^ 64 }
    ensures { IfOk result (λ out. IsTold input.now.kind input.now.manner input.now.bytes.now (Heavy src.now formula) out.items) }
{
    let found = all_tokens(alloc, input.bytes)?;
    let text = Text {
        bytes: input.bytes,
        tokens: found.as_slice(),
    };
    let mut out = report_heavy(alloc, src, formula)?;
    put_heavy(alloc, &mut out, input.manner.form, &text, src, formula)?;
    Ok(out)
}

/// What is written of a program one of whose formulas weighs too much.
pub(crate) fn too_heavy(
    alloc: Global,
    input: &Input<'_>,
    src: &Layered,
    formula: Option<Condition>,
) -> Judged
    requires { length (spell_program src.now) < 2 ^ 64 }
    ensures { IsJudged input.now.kind input.now.manner input.now.bytes.now (λ outcome. outcome ≡ Heavy src.now formula) result }
{
    let Ok(report) = report_weight(alloc, input, src, formula) else {
        return Judged::wanting();
    };
    refused(report)
}

/// What `check` finds of a program that breaks no static rule.
fn check_admitted(
    alloc: Global,
    input: &Input<'_>,
    budget: u32,
    admitted: &Admitted,
    provers: &mut Vec<Box<dyn Prover>>,
) -> Judged
    requires rules { IsLawful admitted.now }
    requires written { IsTrue (allows_program admitted.now) }
    requires short { length (spell_program admitted.now) < 2 ^ 64 }
    ensures { IsJudged input.now.kind input.now.manner input.now.bytes.now (Explains (Checks budget) admitted.now) result }
{
    let told = Told {
        src: source(admitted),
        held: locals_held(admitted),
    };
    match verify(alloc, &Maker, told.src, told.held, provers, budget) {
        Ok(verdict) => decided(alloc, input, &told, budget, &verdict),
        Err(TooMuch::Weight(formula)) => too_heavy(alloc, input, told.src, formula),
        Err(TooMuch::Memory) => Judged::wanting(),
    }
}

/// What `check` finds of a program.
fn check_program(
    alloc: Global,
    input: &Input<'_>,
    budget: u32,
    program: &Program,
    provers: &mut Vec<Box<dyn Prover>>,
) -> Judged
    requires numbered { IsNumbered program.now }
    requires written { IsTrue (allows_program program.now) }
    requires short { length (spell_program program.now) < 2 ^ 64 }
    ensures { IsJudged input.now.kind input.now.manner input.now.bytes.now (Explains (Checks budget) program.now) result }
{
    match admit(alloc, input, program) {
        Ok(admitted) => check_admitted(alloc, input, budget, &admitted, provers),
        Err(judged) => judged,
    }
}

/// What `check` finds of a text.
pub(crate) fn check_text(
    alloc: Global,
    input: &Input<'_>,
    budget: u32,
    provers: &mut Vec<Box<dyn Prover>>,
) -> Judged
    requires { length input.now.bytes.now ≤ limit }
    ensures { IsJudged input.now.kind input.now.manner input.now.bytes.now (Finds IsReading (Explains (Checks budget)) input.now.bytes.now) result }
{
    match read_program(alloc, input.bytes) {
        Read::Spelled(program) => check_program(alloc, input, budget, &program, provers),
        Read::Unread(fault) => judge_fault(alloc, input, fault),
        Read::Memory => Judged::wanting(),
    }
}
