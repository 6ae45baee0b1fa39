// What is found of the conditions of a program.
ghost use Rattle.std.specs.Prelude.{◌≡◌, ◌≤◌, ◌<◌, ◌^◌, ◌++◌, length, IsTrue, IfOk, OnOk, Contains};
ghost use Rattle.civl_tree.specs.Numbered.{IsNumbered};
ghost use Rattle.civl_tree.specs.SpellingDomain.{allows_program};
ghost use Rattle.civl_tree.specs.SpellingProgram.{spell_program};
ghost use Rattle.civl_conditions.specs.Listed.{conditions};
ghost use Rattle.civl_linear.specs.Cuts.{all_held};
ghost use Rattle.civl_conditions.specs.Names.{name_text};
ghost use Rattle.civl_verdicts.specs.reports.Lines.{line};
ghost use Rattle.civl_verdicts.specs.reports.Values.{beside};
ghost use Rattle.civl_frontend.specs.Rules.{IsLawful};
ghost use Rattle.civl_frontend.specs.Texts.{IsReading, limit};
ghost use Rattle.civl_lines.specs.Tokens.{AreTokens};
ghost use Rattle.civl_command.specs.Outcome.{Surveys, survey_status};
ghost use Rattle.civl_explain_command.specs.Outcome.{Explains, Finds, Surveyed};
ghost use Rattle.civl_explain_command.specs.Stories.{found_story, story_text, survey_stories};
ghost use Rattle.civl_explain_command.specs.Told.{IsTold, survey_behind};
ghost use Rattle.civl_explain_command.specs.Judge.{IsJudged};
ghost use Rattle.civl_explain_command.specs.inner.Read.{IsBroken};

use crate::admission::admit;
use crate::check::too_heavy;
use crate::condition::{Told, put_story};
use crate::judged::{Input, all_tokens, judge_fault};
use crate::manner::Manner;
use civl_conditions::{Condition, listed, name};
use civl_frontend::{Judged, Report, Status, Text as Read, read_program};
use civl_layers::program;
use civl_lines::Text;
use civl_maker::Maker;
use civl_portfolio::Prover;
use civl_refusals::put_no_initial;
use civl_tree::{List, Memory, Program};
use civl_verdicts::judging::survey;
use civl_verdicts::reports::{put, report_survey};
use civl_verdicts::{Counter, Found, Survey};
use civl_weights::TooMuch;
use civl_yields::verify::{Admitted, locals_held, source};
use std::alloc::Global;

/// A text and how its stories are told.
#[derive(Clone, Copy)]
struct Written<'a> {
    manner: Manner,
    text: &'a Text<'a>,
}

/// The name of a condition and its story, where it fails.
fn put_failed(
    alloc: Global,
    out: &mut Vec<u8>,
    written: &Written<'_>,
    told: &Told<'_>,
    condition: &Condition,
    counter: &Counter,
) -> Result<(), Memory>
    requires listed { Contains (conditions told.now.src.now) condition.now }
    requires held { told.now.held.now.cuts ≡ all_held told.now.src.now }
    requires short { length (spell_program told.now.src.now) < 2 ^ 64 }
    requires tokens { AreTokens written.now.text.now.bytes.now written.now.text.now.tokens.now }
    ensures { OnOk result (out.new.items ≡ out.old.items ++ (line (name_text told.now.src.now condition.now)
        ++ story_text written.now.manner written.now.text.now.bytes.now written.now.text.now.tokens.now told.now.src.now condition.now counter.now.values)) }
{
    let name = name(alloc, told.src, condition)?;
    put(out, name.as_slice())?;
    put(out, b"\n")?;
    put_story(
        alloc,
        out,
        written.manner,
        written.text,
        told,
        condition,
        counter.values.as_slice(),
    )
}

/// The same of what is found of a condition.
fn put_found(
    alloc: Global,
    out: &mut Vec<u8>,
    written: &Written<'_>,
    told: &Told<'_>,
    condition: &Condition,
    found: &Found,
) -> Result<(), Memory>
    requires listed { Contains (conditions told.now.src.now) condition.now }
    requires held { told.now.held.now.cuts ≡ all_held told.now.src.now }
    requires short { length (spell_program told.now.src.now) < 2 ^ 64 }
    requires tokens { AreTokens written.now.text.now.bytes.now written.now.text.now.tokens.now }
    ensures { OnOk result (out.new.items ≡ out.old.items
        ++ found_story written.now.manner written.now.text.now.bytes.now written.now.text.now.tokens.now told.now.src.now condition.now found.now) }
{
    match found {
        Found::Fails(counter) => put_failed(alloc, out, written, told, condition, counter),
        Found::Holds => Ok(()),
        Found::Undecided(_) => Ok(()),
    }
}

/// The same of all conditions, in their order.
fn put_all(
    alloc: Global,
    out: &mut Vec<u8>,
    written: &Written<'_>,
    told: &Told<'_>,
    list: &List<Condition>,
    findings: &List<Found>,
) -> Result<(), Memory>
    requires listed { list.now ≡ conditions told.now.src.now }
    requires held { told.now.held.now.cuts ≡ all_held told.now.src.now }
    requires short { length (spell_program told.now.src.now) < 2 ^ 64 }
    requires tokens { AreTokens written.now.text.now.bytes.now written.now.text.now.tokens.now }
    ensures { OnOk result (out.new.items ≡ out.old.items
        ++ beside (found_story written.now.manner written.now.text.now.bytes.now written.now.text.now.tokens.now told.now.src.now) list.now findings.now) }
{
    for at in 0..list.len().min(findings.len()) {
        put_found(alloc, out, written, told, list.get(at), findings.get(at))?;
    }
    Ok(())
}

/// The stories of all conditions that fail.
fn put_stories(
    alloc: Global,
    out: &mut Vec<u8>,
    written: &Written<'_>,
    told: &Told<'_>,
    findings: &List<Found>,
) -> Result<(), Memory>
    requires held { told.now.held.now.cuts ≡ all_held told.now.src.now }
    requires short { length (spell_program told.now.src.now) < 2 ^ 64 }
    requires tokens { AreTokens written.now.text.now.bytes.now written.now.text.now.tokens.now }
    ensures { OnOk result (out.new.items ≡ out.old.items
        ++ survey_stories written.now.manner written.now.text.now.bytes.now written.now.text.now.tokens.now told.now.src.now findings.now) }
{
    let list = listed(alloc, told.src)?;
    put_all(alloc, out, written, told, &list, findings)
}

/// What stands behind the report of a survey.
fn put_survey(
    alloc: Global,
    out: &mut Vec<u8>,
    written: &Written<'_>,
    told: &Told<'_>,
    survey: &Survey,
) -> Result<(), Memory>
    requires held { told.now.held.now.cuts ≡ all_held told.now.src.now }
    requires short { length (spell_program told.now.src.now) < 2 ^ 64 }
    requires tokens { AreTokens written.now.text.now.bytes.now written.now.text.now.tokens.now }
    ensures { OnOk result (out.new.items ≡ out.old.items
        ++ survey_behind written.now.manner written.now.text.now.bytes.now written.now.text.now.tokens.now told.now.src.now survey.now) }
{
    match survey {
        Survey::NoInitial => put_no_initial(
            out,
            written.manner.form,
            written.text,
            program(told.src),
        ),
        Survey::Findings(_, findings) => put_stories(alloc, out, written, told, findings),
    }
}

/// The report of a survey.
fn report_told(
    alloc: Global,
    input: &Input<'_>,
    told: &Told<'_>,
    budget: u32,
    survey: &Survey,
) -> Result<Vec<u8>, Memory>
    requires held { told.now.held.now.cuts ≡ all_held told.now.src.now }
    requires short { length (spell_program told.now.src.now) < 2 ^ 64 }
    ensures { IfOk result (λ out. IsTold input.now.kind input.now.manner input.now.bytes.now
        (Surveyed told.now.src.now budget survey.now) out.items) }
{
    let found = all_tokens(alloc, input.bytes)?;
    let text = Text {
        bytes: input.bytes,
        tokens: found.as_slice(),
    };
    let written = Written {
        manner: input.manner,
        text: &text,
    };
    let mut out = report_survey(alloc, told.src, budget, survey)?;
    put_survey(alloc, &mut out, &written, told, survey)?;
    Ok(out)
}

/// The status of a survey.
fn survey_status(survey: &Survey) -> Status
    ensures { result ≡ survey_status survey.now }
{
    match survey {
        Survey::NoInitial => Status::Refused,
        Survey::Findings(_, _) => Status::Done,
    }
}

/// What is written of a survey.
fn surveyed(
    alloc: Global,
    input: &Input<'_>,
    told: &Told<'_>,
    budget: u32,
    survey: &Survey,
) -> Judged
    requires held { told.now.held.now.cuts ≡ all_held told.now.src.now }
    requires short { length (spell_program told.now.src.now) < 2 ^ 64 }
    ensures { IsJudged input.now.kind input.now.manner input.now.bytes.now (λ outcome. outcome ≡ Surveyed told.now.src.now budget survey.now) result }
{
    let Ok(report) = report_told(alloc, input, told, budget, survey) else {
        return Judged::wanting();
    };
    Judged {
        status: survey_status(survey),
        report: Report::Made(report),
    }
}

/// What `conditions` finds of a program that breaks no static rule.
fn survey_admitted(
    alloc: Global,
    input: &Input<'_>,
    budget: u32,
    admitted: &Admitted,
    provers: &mut Vec<Box<dyn Prover>>,
) -> Judged
    requires rules { IsLawful admitted.now }
    requires written { IsTrue (allows_program admitted.now) }
    requires short { length (spell_program admitted.now) < 2 ^ 64 }
    ensures { IsJudged input.now.kind input.now.manner input.now.bytes.now (Explains (Surveys budget) admitted.now) result }
{
    let told = Told {
        src: source(admitted),
        held: locals_held(admitted),
    };
    match survey(alloc, &Maker, told.src, told.held, provers, budget) {
        Ok(found) => surveyed(alloc, input, &told, budget, &found),
        Err(TooMuch::Weight(formula)) => too_heavy(alloc, input, told.src, formula),
        Err(TooMuch::Memory) => Judged::wanting(),
    }
}

/// What `conditions` finds of a program.
fn survey_program(
    alloc: Global,
    input: &Input<'_>,
    budget: u32,
    program: &Program,
    provers: &mut Vec<Box<dyn Prover>>,
) -> Judged
    requires numbered { IsNumbered program.now }
    requires written { IsTrue (allows_program program.now) }
    requires short { length (spell_program program.now) < 2 ^ 64 }
    ensures { IsJudged input.now.kind input.now.manner input.now.bytes.now (Explains (Surveys budget) program.now) result }
{
    match admit(alloc, input, program) {
        Ok(admitted) => survey_admitted(alloc, input, budget, &admitted, provers),
        Err(judged) => judged,
    }
}

/// What `conditions` finds of a text.
pub(crate) fn survey_text(
    alloc: Global,
    input: &Input<'_>,
    budget: u32,
    provers: &mut Vec<Box<dyn Prover>>,
) -> Judged
    requires { length input.now.bytes.now ≤ limit }
    ensures { IsJudged input.now.kind input.now.manner input.now.bytes.now (Finds IsReading (Explains (Surveys budget)) input.now.bytes.now) result }
{
    match read_program(alloc, input.bytes) {
        Read::Spelled(program) => survey_program(alloc, input, budget, &program, provers),
        Read::Unread(fault) => judge_fault(alloc, input, fault),
        Read::Memory => Judged::wanting(),
    }
}
