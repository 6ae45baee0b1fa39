// What an outline proves of its program.
ghost use Rattle.std.specs.Prelude.{◌≡◌, ◌≤◌, ◌+◌, ◌<◌, ◌^◌, length, IsTrue};
ghost use Rattle.civl_tree.specs.Numbered.{IsNumbered};
ghost use Rattle.civl_tree.specs.SpellingDomain.{allows_program};
ghost use Rattle.civl_frontend.specs.Rules.{IsLawful};
ghost use Rattle.civl_frontend.specs.Texts.{IsOutlineReading, limit};
ghost use Rattle.civl_command.specs.Outcome.{Proven, Proves, Finds, proved_status, proving_status};
ghost use Rattle.civl_command.specs.Judge.{IsJudged};

use crate::judged::{judge_fault, refuse};
use civl_frontend::{Judged, Report, Status, Text, admitted, read_outline, verdict_status};
use civl_layers::Layered;
use civl_maker::Maker;
use civl_outlines::Outline;
use civl_portfolio::Prover;
use civl_prove::Proved;
use civl_prove::outline_reports::{Proving, prove_outline, report_proving};
use civl_tree::{Refused, copy_program};
use civl_yields::verify::{Admitted, locals_held, source};
use std::alloc::Global;

/// The status of what is found of the goals.
fn proved_status(proved: &Proved) -> Status
    ensures { result ≡ proved_status proved.now }
{
    match proved {
        Proved::All(_) => Status::Done,
        Proved::Fails(_, _) => Status::Rejected,
        Proved::Undecided(_, _) => Status::Undecided,
    }
}

/// The status of what is found of an outline.
fn proving_status(proving: &Proving) -> Status
    ensures { result ≡ proving_status proving.now }
{
    match proving {
        Proving::Note(_) => Status::Refused,
        Proving::Roots(_, _) => Status::Refused,
        Proving::Heavy(_) => Status::Refused,
        Proving::HeavyGoal(_) => Status::Refused,
        Proving::Judged(verdict) => verdict_status(verdict),
        Proving::Decided(_, proved) => proved_status(proved),
    }
}

/// What is written of an outline.
fn proven(alloc: Global, src: &Layered, outline: &Outline, budget: u32, proving: &Proving) -> Judged
    requires same { src.now ≡ outline.now.program }
    ensures { IsJudged (λ outcome. outcome ≡ Proven outline.now budget proving.now) result }
{
    let Ok(report) = report_proving(alloc, src, budget, proving) else {
        return Judged::wanting();
    };
    Judged {
        status: proving_status(proving),
        report: Report::Made(report),
    }
}

/// What `prove` finds of an outline whose program breaks no static rule.
fn prove_admitted(
    alloc: Global,
    budget: u32,
    admitted: &Admitted,
    outline: &Outline,
    provers: &mut Vec<Box<dyn Prover>>,
) -> Judged
    requires same { admitted.now ≡ outline.now.program }
    requires rules { IsLawful admitted.now }
    requires written { IsTrue (allows_program admitted.now) }
    requires few { length outline.now.holds + length outline.now.notes < 2 ^ 32 }
    ensures { IsJudged (Proves budget outline.now) result }
{
    let src = source(admitted);
    match prove_outline(
        alloc,
        &Maker,
        src,
        locals_held(admitted),
        outline,
        provers,
        budget,
    ) {
        Ok(proving) => proven(alloc, src, outline, budget, &proving),
        Err(_) => Judged::wanting(),
    }
}

/// What `prove` finds of an outline. Its program has fewer than 2^32 items, and each procedure fewer than 2^32 statements; its holds and
/// notes together are fewer than 2^32.
fn judge_outline(
    alloc: Global,
    budget: u32,
    outline: &Outline,
    provers: &mut Vec<Box<dyn Prover>>,
) -> Judged
    requires numbered { IsNumbered outline.now.program }
    requires written { IsTrue (allows_program outline.now.program) }
    requires few { length outline.now.holds + length outline.now.notes < 2 ^ 32 }
    ensures { IsJudged (Proves budget outline.now) result }
{
    let Ok(program) = copy_program(alloc, &outline.program) else {
        return Judged::wanting();
    };
    match admitted(alloc, program) {
        Ok(admitted) => prove_admitted(alloc, budget, &admitted, outline, provers),
        Err(Refused::At(refusal)) => refuse(alloc, refusal),
        Err(Refused::Memory) => Judged::wanting(),
    }
}

/// What `prove` finds of a text.
pub(crate) fn prove_text(
    alloc: Global,
    budget: u32,
    bytes: &[u8],
    provers: &mut Vec<Box<dyn Prover>>,
) -> Judged
    requires { length bytes.now ≤ limit }
    ensures { IsJudged (Finds IsOutlineReading (Proves budget) bytes.now) result }
{
    match read_outline(alloc, bytes) {
        Text::Spelled(outline) => judge_outline(alloc, budget, &outline, provers),
        Text::Unread(fault) => judge_fault(alloc, fault),
        Text::Memory => Judged::wanting(),
    }
}
