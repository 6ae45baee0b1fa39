// What an outline proves of its program.
ghost use Rattle.std.specs.Prelude.{◌≡◌, ◌≤◌, ◌+◌, ◌<◌, ◌^◌, ◌++◌, [], length, IsTrue, IfOk, OnOk, if◌then◌else◌};
ghost use Rattle.std.specs.Option.{option_map_or};
ghost use Rattle.civl_tree.specs.Numbered.{IsNumbered};
ghost use Rattle.civl_tree.specs.SpellingDomain.{allows_program};
ghost use Rattle.civl_tree.specs.SpellingProgram.{spell_program};
ghost use Rattle.civl_outlines.specs.SpellingOutline.{spell_outline};
ghost use Rattle.civl_goal_losses.specs.GoalLosses.{goal_loss};
ghost use Rattle.civl_goal_stories.specs.GoalStories.{goal_story};
ghost use Rattle.civl_linear.specs.Cuts.{all_held};
ghost use Rattle.civl_prove.specs.outline_reports.Proving.{IsProving};
ghost use Rattle.civl_frontend.specs.Rules.{IsLawful};
ghost use Rattle.civl_frontend.specs.Texts.{IsOutlineReading, limit};
ghost use Rattle.civl_command.specs.Outcome.{proved_status, proving_status};
ghost use Rattle.civl_explain_command.specs.Outcome.{Finds, Outlines, Proven};
ghost use Rattle.civl_explain_command.specs.Told.{IsTold, proving_story};
ghost use Rattle.civl_explain_command.specs.Stories.{goal_assumptions, goal_story_text, proved_story};
ghost use Rattle.civl_explain_command.specs.Judge.{IsJudged};
ghost use Rattle.civl_explain_command.specs.inner.Read.{IsBroken, IsRefused, TellsBehind};

use crate::admission::admit;
use crate::check::put_verdict;
use crate::condition::Told;
use crate::judged::{Input, all_tokens, judge_fault};
use civl_assumptions::push_assumed;
use civl_bits::Value;
use civl_conditions::Condition;
use civl_frontend::{Judged, Report, Status, Text as Read, read_outline, verdict_status};
use civl_goal_losses::goal_loss;
use civl_goal_stories::{push_goal_assumed, push_goal_story};
use civl_goals::Goal;
use civl_layers::{Layered, program};
use civl_lines::{Line, Text, put_lines};
use civl_maker::Maker;
use civl_outlines::Outline;
use civl_portfolio::Prover;
use civl_prove::Proved;
use civl_prove::outline_reports::{Proving, prove_outline, report_proving};
use civl_refusals::{put_descending, put_heavy, put_heavy_goal, put_unfit};
use civl_tree::{Memory, Program};
use civl_yields::verify::{Admitted, locals_held, source};
use std::alloc::Global;

/// The status of what is found of the goals.
fn proved_status(proved: &Proved) -> Status
    ensures { result ≡ proved_status proved.now }
{
    match proved {
        Proved::All(_) => Status::Done,
        Proved::Fails(_, _) => Status::Rejected,
        Proved::Undecided(_, _) => Status::Undecided,
    }
}

/// The status of what is found of an outline.
fn proving_status(proving: &Proving) -> Status
    ensures { result ≡ proving_status proving.now }
{
    match proving {
        Proving::Note(_) => Status::Refused,
        Proving::Roots(_, _) => Status::Refused,
        Proving::Heavy(_) => Status::Refused,
        Proving::HeavyGoal(_) => Status::Refused,
        Proving::Judged(verdict) => verdict_status(verdict),
        Proving::Decided(_, proved) => proved_status(proved),
    }
}

/// The step above the topmost layer.
fn beyond(program: &Program) -> u32
    requires { program.now.layers + 1 < 4294967296 }
    ensures { result ≡ program.now.layers + 1 }
{
    program.layers + 1
}

/// Adds what a goal assumes.
fn push_goal_assumptions(
    alloc: Global,
    lines: &mut Vec<Line>,
    told: &Told<'_>,
    outline: &Outline,
    goal: Goal,
    values: &[Value],
) -> Result<(), Memory>
    requires held { told.now.held.now.cuts ≡ all_held told.now.src.now }
    requires short { length (spell_program told.now.src.now) < 2 ^ 64 }
    requires whole { length (spell_outline outline.now) < 2 ^ 64 }
    ensures { OnOk result (lines.new.items ≡ lines.old.items ++ goal_assumptions told.now.src.now outline.now goal values.now) }
{
    let program = program(told.src);
    match goal {
        Goal::Invariant | Goal::Thread(_) => {
            let start = Condition::Start(1, 0);
            push_assumed(alloc, lines, told.src, told.held, &start, values)
        }
        Goal::Linear(action) => {
            let keep = Condition::Keep(beyond(program), action);
            push_assumed(alloc, lines, told.src, told.held, &keep, values)
        }
        Goal::Safe(_, _)
        | Goal::Keep(_, _)
        | Goal::Spawn(_, _)
        | Goal::Next(_, _)
        | Goal::Other(_, _, _, _) => push_goal_assumed(alloc, lines, outline, goal),
    }
}

/// Adds it where it is asked for.
fn push_asked(
    alloc: Global,
    lines: &mut Vec<Line>,
    with_assumed: bool,
    told: &Told<'_>,
    outline: &Outline,
    goal: Goal,
    values: &[Value],
) -> Result<(), Memory>
    requires held { told.now.held.now.cuts ≡ all_held told.now.src.now }
    requires short { length (spell_program told.now.src.now) < 2 ^ 64 }
    requires whole { length (spell_outline outline.now) < 2 ^ 64 }
    ensures { OnOk result (lines.new.items ≡ lines.old.items
        ++ (if with_assumed then goal_assumptions told.now.src.now outline.now goal values.now else [])) }
{
    if with_assumed {
        push_goal_assumptions(alloc, lines, told, outline, goal, values)
    } else {
        Ok(())
    }
}

/// Adds the story of a goal.
fn push_goal(
    alloc: Global,
    lines: &mut Vec<Line>,
    src: &Layered,
    outline: &Outline,
    goal: Goal,
    values: &[Value],
) -> Result<(), Memory>
    requires short { length (spell_outline outline.now) < 2 ^ 64 }
    ensures { OnOk result (lines.new.items ≡ lines.old.items
        ++ option_map_or (goal_story outline.now goal) (goal_loss src.now outline.now goal values.now) []) }
{
    match goal_loss(alloc, src, outline, goal, values)? {
        Some(loss) => push_goal_story(alloc, lines, outline, goal, &loss),
        None => Ok(()),
    }
}

/// Puts the story of a goal at its values behind what is there.
fn put_goal(
    alloc: Global,
    out: &mut Vec<u8>,
    input: &Input<'_>,
    told: &Told<'_>,
    outline: &Outline,
    goal: Goal,
    values: &[Value],
) -> Result<(), Memory>
    requires held { told.now.held.now.cuts ≡ all_held told.now.src.now }
    requires short { length (spell_program told.now.src.now) < 2 ^ 64 }
    requires whole { length (spell_outline outline.now) < 2 ^ 64 }
    ensures { OnOk result (TellsBehind input.now.bytes.now out.old.items out.new.items
        (λ tokens. goal_story_text input.now.manner input.now.bytes.now tokens told.now.src.now outline.now goal values.now)) }
{
    let found = all_tokens(alloc, input.bytes)?;
    let text = Text {
        bytes: input.bytes,
        tokens: found.as_slice(),
    };
    let mut lines = Vec::new(alloc);
    push_asked(
        alloc,
        &mut lines,
        input.manner.assumed,
        told,
        outline,
        goal,
        values,
    )?;
    push_goal(alloc, &mut lines, told.src, outline, goal, values)?;
    put_lines(out, input.manner.form, &text, lines.as_slice())
}

/// Puts what stands behind what is found of the goals behind what is there: the story of the one that isn't proved.
fn put_proved(
    alloc: Global,
    out: &mut Vec<u8>,
    input: &Input<'_>,
    told: &Told<'_>,
    outline: &Outline,
    proved: &Proved,
) -> Result<(), Memory>
    requires held { told.now.held.now.cuts ≡ all_held told.now.src.now }
    requires short { length (spell_program told.now.src.now) < 2 ^ 64 }
    requires whole { length (spell_outline outline.now) < 2 ^ 64 }
    ensures { OnOk result (TellsBehind input.now.bytes.now out.old.items out.new.items
        (λ tokens. proved_story input.now.manner input.now.bytes.now tokens told.now.src.now outline.now proved.now)) }
{
    match proved {
        Proved::Fails(goal, values) => put_goal(
            alloc,
            out,
            input,
            told,
            outline,
            *goal,
            values.as_slice(),
        ),
        _ => {
            let _found = all_tokens(alloc, input.bytes)?;
            Ok(())
        }
    }
}

/// Puts the place of a rule that is broken, or of a formula that weighs too much, behind what is there.
fn put_refused(
    alloc: Global,
    out: &mut Vec<u8>,
    input: &Input<'_>,
    told: &Told<'_>,
    outline: &Outline,
    proving: &Proving,
) -> Result<(), Memory>
    requires refused { IsRefused proving.now }
    requires short { length (spell_program told.now.src.now) < 2 ^ 64 }
    requires whole { length (spell_outline outline.now) < 2 ^ 64 }
    ensures { OnOk result (TellsBehind input.now.bytes.now out.old.items out.new.items
        (λ tokens. proving_story input.now.manner input.now.bytes.now tokens told.now.src.now outline.now proving.now)) }
{
    let found = all_tokens(alloc, input.bytes)?;
    let text = Text {
        bytes: input.bytes,
        tokens: found.as_slice(),
    };
    let (form, src) = (input.manner.form, told.src);
    match proving {
        Proving::Note(number) => put_unfit(alloc, out, form, &text, outline, *number as usize),
        Proving::Roots(item, statement) => {
            put_descending(alloc, out, form, &text, program(src), *item, *statement)
        }
        Proving::Heavy(first) => put_heavy(alloc, out, form, &text, src, *first),
        Proving::HeavyGoal(goal) => put_heavy_goal(alloc, out, form, &text, program(src), *goal),
        Proving::Judged(_) => Ok(()),
        Proving::Decided(_, _) => Ok(()),
    }
}

/// Puts what stands behind the report of what is found of an outline behind what is there.
fn put_behind(
    alloc: Global,
    out: &mut Vec<u8>,
    input: &Input<'_>,
    told: &Told<'_>,
    outline: &Outline,
    budget: u32,
    proving: &Proving,
) -> Result<(), Memory>
    requires found { IsProving told.now.src.now outline.now budget proving.now }
    requires held { told.now.held.now.cuts ≡ all_held told.now.src.now }
    requires short { length (spell_program told.now.src.now) < 2 ^ 64 }
    requires whole { length (spell_outline outline.now) < 2 ^ 64 }
    ensures { OnOk result (TellsBehind input.now.bytes.now out.old.items out.new.items
        (λ tokens. proving_story input.now.manner input.now.bytes.now tokens told.now.src.now outline.now proving.now)) }
{
    match proving {
        Proving::Judged(verdict) => put_verdict(alloc, out, input, told, budget, verdict),
        Proving::Decided(_, proved) => put_proved(alloc, out, input, told, outline, proved),
        Proving::Note(_) | Proving::Roots(_, _) | Proving::Heavy(_) | Proving::HeavyGoal(_) =>
            put_refused(alloc, out, input, told, outline, proving),
    }
}

/// The report of what is found of an outline.
fn report_told(
    alloc: Global,
    input: &Input<'_>,
    told: &Told<'_>,
    outline: &Outline,
    budget: u32,
    proving: &Proving,
) -> Result<Vec<u8>, Memory>
    requires same { told.now.src.now ≡ outline.now.program }
    requires found { IsProving told.now.src.now outline.now budget proving.now }
    requires held { told.now.held.now.cuts ≡ all_held told.now.src.now }
    requires short { length (spell_program told.now.src.now) < 2 ^ 64 }
    requires whole { length (spell_outline outline.now) < 2 ^ 64 }
    ensures { IfOk result (λ out. IsTold input.now.kind input.now.manner input.now.bytes.now
        (Proven outline.now budget proving.now) out.items) }
{
    let mut out = report_proving(alloc, told.src, budget, proving)?;
    put_behind(alloc, &mut out, input, told, outline, budget, proving)?;
    Ok(out)
}

/// What is written of an outline.
fn proven(
    alloc: Global,
    input: &Input<'_>,
    told: &Told<'_>,
    outline: &Outline,
    budget: u32,
    proving: &Proving,
) -> Judged
    requires same { told.now.src.now ≡ outline.now.program }
    requires found { IsProving told.now.src.now outline.now budget proving.now }
    requires held { told.now.held.now.cuts ≡ all_held told.now.src.now }
    requires short { length (spell_program told.now.src.now) < 2 ^ 64 }
    requires whole { length (spell_outline outline.now) < 2 ^ 64 }
    ensures { IsJudged input.now.kind input.now.manner input.now.bytes.now (λ outcome. outcome ≡ Proven outline.now budget proving.now) result }
{
    let Ok(report) = report_told(alloc, input, told, outline, budget, proving) else {
        return Judged::wanting();
    };
    Judged {
        status: proving_status(proving),
        report: Report::Made(report),
    }
}

/// What `prove` finds of an outline whose program breaks no static rule.
fn prove_admitted(
    alloc: Global,
    input: &Input<'_>,
    budget: u32,
    admitted: &Admitted,
    outline: &Outline,
    provers: &mut Vec<Box<dyn Prover>>,
) -> Judged
    requires same { admitted.now ≡ outline.now.program }
    requires rules { IsLawful admitted.now }
    requires written { IsTrue (allows_program admitted.now) }
    requires short { length (spell_program admitted.now) < 2 ^ 64 }
    requires whole { length (spell_outline outline.now) < 2 ^ 64 }
    requires few { length outline.now.holds + length outline.now.notes < 2 ^ 32 }
    ensures { IsJudged input.now.kind input.now.manner input.now.bytes.now (Outlines budget outline.now) result }
{
    let told = Told {
        src: source(admitted),
        held: locals_held(admitted),
    };
    match prove_outline(alloc, &Maker, told.src, told.held, outline, provers, budget) {
        Ok(proving) => proven(alloc, input, &told, outline, budget, &proving),
        Err(_) => Judged::wanting(),
    }
}

/// What `prove` finds of an outline.
fn prove_read(
    alloc: Global,
    input: &Input<'_>,
    budget: u32,
    outline: &Outline,
    provers: &mut Vec<Box<dyn Prover>>,
) -> Judged
    requires numbered { IsNumbered outline.now.program }
    requires written { IsTrue (allows_program outline.now.program) }
    requires short { length (spell_program outline.now.program) < 2 ^ 64 }
    requires whole { length (spell_outline outline.now) < 2 ^ 64 }
    requires few { length outline.now.holds + length outline.now.notes < 2 ^ 32 }
    ensures { IsJudged input.now.kind input.now.manner input.now.bytes.now (Outlines budget outline.now) result }
{
    match admit(alloc, input, &outline.program) {
        Ok(admitted) => prove_admitted(alloc, input, budget, &admitted, outline, provers),
        Err(judged) => judged,
    }
}

/// What `prove` finds of a text.
pub(crate) fn prove_text(
    alloc: Global,
    input: &Input<'_>,
    budget: u32,
    provers: &mut Vec<Box<dyn Prover>>,
) -> Judged
    requires { length input.now.bytes.now ≤ limit }
    ensures { IsJudged input.now.kind input.now.manner input.now.bytes.now (Finds IsOutlineReading (Outlines budget) input.now.bytes.now) result }
{
    match read_outline(alloc, input.bytes) {
        Read::Spelled(outline) => prove_read(alloc, input, budget, &outline, provers),
        Read::Unread(fault) => judge_fault(alloc, input, fault),
        Read::Memory => Judged::wanting(),
    }
}
