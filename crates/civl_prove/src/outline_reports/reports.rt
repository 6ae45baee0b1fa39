// The report of what is found of a program and an outline.
ghost use Rattle.std.specs.Prelude.{◌≡◌, ◌+◌, ◌++◌, [], OnOk, IfOk};
ghost use Rattle.civl_goals.specs.Names.{goal_text};
ghost use Rattle.civl_verdicts.specs.reports.Values.{value_lines};
ghost use Rattle.civl_prove.specs.outline_reports.Reports.{note_text, roots_text, heavy_goal_text, safe_text, unproved_text, open_text, proved_text, proving_text};

use crate::Proved;
use crate::outline_reports::Proving;
use civl_bits::Value;
use civl_conditions::Variable;
use civl_goals::{Goal, goal_name, goal_variables};
use civl_layers::Layered;
use civl_tree::{List, Memory};
use civl_verdicts::reports::{put, put_number, put_value, report_heavy};
use civl_verdicts::verdict_reports::report_verdict;
use itoa::Buffer;
use std::alloc::Global;

// ---- refusals

/// The first hold or note that doesn't fit.
fn put_note(out: &mut Vec<u8>, number: u32) -> Result<(), Memory>
    ensures { OnOk result (out.new.items ≡ out.old.items ++ note_text number) }
{
    put(out, b"refused E90 at note ")?;
    put_number(out, number as usize)?;
    put(out, b"\n")?;
    Ok(())
}

/// The first place at which the topmost program calls a root, or runs another procedure.
fn put_roots(out: &mut Vec<u8>, item: u32, statement: u32) -> Result<(), Memory>
    ensures { OnOk result (out.new.items ≡ out.old.items ++ roots_text item statement) }
{
    put(out, b"refused E91 at item ")?;
    put_number(out, item as usize)?;
    put(out, b" statement ")?;
    put_number(out, statement as usize)?;
    put(out, b"\n")?;
    Ok(())
}

/// The name of a goal.
fn put_goal(alloc: Global, out: &mut Vec<u8>, src: &Layered, goal: &Goal) -> Result<(), Memory>
    ensures { OnOk result (out.new.items ≡ out.old.items ++ goal_text src.now goal.now) }
{
    let name = goal_name(alloc, src, goal)?;
    put(out, name.as_slice())
}

/// The first goal that weighs too much.
fn put_heavy(alloc: Global, out: &mut Vec<u8>, src: &Layered, goal: &Goal) -> Result<(), Memory>
    ensures { OnOk result (out.new.items ≡ out.old.items ++ heavy_goal_text src.now goal.now) }
{
    put(out, b"refused E61 at ")?;
    put_goal(alloc, out, src, goal)?;
    put(out, b" over 400000\n")?;
    Ok(())
}

// ---- goals

/// How many conditions and goals there are, all of which hold.
fn put_safe(out: &mut Vec<u8>, conditions: usize, goals: usize) -> Result<(), Memory>
    ensures { OnOk result (out.new.items ≡ out.old.items ++ safe_text (conditions + goals)) }
{
    let all = conditions as u128 + goals as u128;
    let mut buffer = Buffer::new();
    put(out, b"safe ")?;
    put(out, buffer.format(all).as_bytes())?;
    put(out, b" conditions\n")
}

/// A line for each variable, with its value.
fn put_lines(
    out: &mut Vec<u8>,
    variables: &List<Variable>,
    values: &List<Value>,
) -> Result<(), Memory>
    ensures { OnOk result (out.new.items ≡ out.old.items ++ value_lines [] variables.now values.now) }
{
    for at in 0..variables.len().min(values.len()) {
        put_value(out, b"", &variables.get(at).name, values.get(at))?;
    }
    Ok(())
}

/// The first goal that doesn't hold, and values that violate it.
fn put_unproved(
    alloc: Global,
    out: &mut Vec<u8>,
    src: &Layered,
    goal: &Goal,
    values: &List<Value>,
) -> Result<(), Memory>
    ensures { OnOk result (out.new.items ≡ out.old.items ++ unproved_text src.now goal.now values.now) }
{
    let variables = goal_variables(alloc, src, goal)?;
    put(out, b"unproved ")?;
    put_goal(alloc, out, src, goal)?;
    put(out, b"\n")?;
    put_lines(out, &variables, values)
}

/// The goal that isn't decided, and the budget of its search.
fn put_open(
    alloc: Global,
    out: &mut Vec<u8>,
    src: &Layered,
    goal: &Goal,
    budget: u32,
) -> Result<(), Memory>
    ensures { OnOk result (out.new.items ≡ out.old.items ++ open_text src.now goal.now budget) }
{
    put(out, b"undecided ")?;
    put_goal(alloc, out, src, goal)?;
    put(out, b" after ")?;
    put_number(out, budget as usize)?;
    put(out, b"\n")
}

/// What is found of the goals of a program with so many conditions.
fn put_proved(
    alloc: Global,
    out: &mut Vec<u8>,
    src: &Layered,
    budget: u32,
    count: usize,
    proved: &Proved,
) -> Result<(), Memory>
    ensures { OnOk result (out.new.items ≡ out.old.items ++ proved_text src.now budget count proved.now) }
{
    match proved {
        Proved::All(goals) => put_safe(out, count, *goals),
        Proved::Fails(goal, values) => put_unproved(alloc, out, src, goal, values),
        Proved::Undecided(goal, _) => put_open(alloc, out, src, goal, budget),
    }
}

// ---- all

fn put_proving(
    alloc: Global,
    out: &mut Vec<u8>,
    src: &Layered,
    budget: u32,
    proving: &Proving,
) -> Result<(), Memory>
    ensures { OnOk result (out.new.items ≡ out.old.items ++ proving_text src.now budget proving.now) }
{
    match proving {
        Proving::Note(number) => put_note(out, *number),
        Proving::Roots(item, statement) => put_roots(out, *item, *statement),
        Proving::Heavy(first) => {
            let text = report_heavy(alloc, src, *first)?;
            put(out, text.as_slice())
        }
        Proving::HeavyGoal(goal) => put_heavy(alloc, out, src, goal),
        Proving::Judged(verdict) => {
            let text = report_verdict(alloc, src, budget, verdict)?;
            put(out, text.as_slice())
        }
        Proving::Decided(count, proved) => put_proved(alloc, out, src, budget, *count, proved),
    }
}

/// What is reported of a program and an outline of its topmost program under a budget: the refusal; of a program that isn't accepted,
/// what `check` reports; and else how many conditions and goals there are, all of which hold, or the first goal that doesn't, with a
/// line for each of its variables, or the goal that is left open under the budget.
///
/// # Errors
///
/// For want of memory.
pub fn report_proving(
    alloc: Global,
    src: &Layered,
    budget: u32,
    proving: &Proving,
) -> Result<Vec<u8>, Memory>
    ensures { IfOk result (λ out. out.items ≡ proving_text src.now budget proving.now) }
{
    let mut out = Vec::new(alloc);
    put_proving(alloc, &mut out, src, budget, proving)?;
    Ok(out)
}
