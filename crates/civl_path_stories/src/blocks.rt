// Blocks that change what they may not, or do other than the refined action; and ranks that stay.
ghost use Rattle.std.specs.Prelude.{◌≡◌, ◌++◌, ◌∷◌, [], IfOk, OnOk};
ghost use Rattle.civl_tree.specs.rules.Names.{global_names, param_names};
ghost use Rattle.civl_firing.specs.Names.{names_of};
ghost use Rattle.civl_verdicts.specs.models.Text.{listed};
ghost use Rattle.civl_verdicts.specs.reports.Values.{beside};
ghost use Rattle.civl_path_stories.specs.Paths.{block_text, change_texts, given_text, given_value, gives_text, giving_text, lost_at};
ghost use Rattle.civl_path_stories.specs.Paths.{lost_at_end, rank_text, refined_number, waiting_text, waits_lines, waits_text};
ghost use Rattle.civl_path_stories.specs.inner.Routes.{told, Fits};

use crate::changes::{put_changes, put_given, put_more_changes};
use crate::ends::{push_lost, push_lost_at_end};
use crate::formulas::push_guard;
use crate::gates::put_given_value;
use crate::route::Route;
use civl_bits::Value;
use civl_firing::firing::{global_targets, out_targets};
use civl_firing::names::{Names, action};
use civl_lines::Line;
use civl_meaning::slices::first;
use civl_traces::Changed;
use civl_tree::{Action, Choice, List, Memory};
use civl_verdicts::models::put_value_text;
use civl_verdicts::reports::put;
use std::alloc::Global;

// ---- what a block changes

/// Puts changes of globals and of outputs behind what is there, joined by `, `.
fn put_both(
    out: &mut Vec<u8>,
    globals: &Names<'_>,
    outs: &Names<'_>,
    global_changes: &[Changed],
    out_changes: &[Changed],
) -> Result<(), Memory>
    ensures { OnOk result (out.new.items ≡ out.old.items
        ++ listed (change_texts (names_of globals.now) global_changes.now ++ change_texts (names_of outs.now) out_changes.now)) }
{
    if global_changes.is_empty() {
        return put_changes(out, outs, out_changes);
    }
    put_changes(out, globals, global_changes)?;
    put_more_changes(out, outs, out_changes)
}

/// The names of the globals.
fn global_names<'a>(route: &Route<'a>) -> Names<'a>
    ensures { names_of result ≡ global_names route.now.program.now.globals }
{
    global_targets(route.program.globals.as_slice())
}

/// The names of the outputs.
fn out_names<'a>(route: &Route<'a>) -> Names<'a>
    ensures { names_of result ≡ param_names route.now.proc.now.outs }
{
    out_targets(route.proc.outs.as_slice())
}

/// Puts what a block changes behind what is there.
fn put_block(
    out: &mut Vec<u8>,
    route: &Route<'_>,
    globals: &[Changed],
    outs: &[Changed],
) -> Result<(), Memory>
    ensures { OnOk result (out.new.items ≡ out.old.items
        ++ listed (change_texts (global_names route.now.program.now.globals) globals.now
        ++ change_texts (param_names route.now.proc.now.outs) outs.now)) }
{
    put_both(out, &global_names(route), &out_names(route), globals, outs)
}

/// What is said of a block that changes these.
fn block_text(
    alloc: Global,
    route: &Route<'_>,
    globals: &[Changed],
    outs: &[Changed],
) -> Result<Vec<u8>, Memory>
    ensures { IfOk result (λ text. text.items ≡ block_text (told route.now) globals.now outs.now) }
{
    let mut text = Vec::from_slice(alloc, b"a block without a commit changes ")?;
    put_block(&mut text, route, globals, outs)?;
    Ok(text)
}

/// A block without a commit changes these globals and outputs.
pub(crate) fn push_changes(
    alloc: Global,
    lines: &mut Vec<Line>,
    route: &Route<'_>,
    globals: &[Changed],
    outs: &[Changed],
) -> Result<(), Memory>
    requires { Fits route.now }
    ensures { OnOk result (lines.new.items ≡ lines.old.items
        ++ lost_at_end (told route.now) (block_text (told route.now) globals.now outs.now) ∷ []) }
{
    let text = block_text(alloc, route, globals, outs)?;
    push_lost_at_end(alloc, lines, route, text.as_slice())
}

// ---- the refined action

/// The number of the action that the procedure refines.
fn refined_number(route: &Route<'_>) -> usize
    ensures { result ≡ refined_number (told route.now) }
{
    match &route.proc.refines {
        Some(refines) => action(route.program.actions.as_slice(), &refines.action),
        None => 0,
    }
}

/// Puts `, name = value` of each of these choices behind what is there.
fn put_choices(
    out: &mut Vec<u8>,
    choices: &List<Choice>,
    values: &List<Value>,
) -> Result<(), Memory>
    ensures { OnOk result (out.new.items ≡ out.old.items ++ beside (λ c. given_value c.name) choices.now values.now) }
{
    for at in 0..choices.len().min(values.len()) {
        put_given_value(out, &choices.get(at).name, values.get(at))?;
    }
    Ok(())
}

/// Puts behind what is there that an action waits with these choices.
fn put_waiting(out: &mut Vec<u8>, action: &Action, chosen: &List<Value>) -> Result<(), Memory>
    ensures { OnOk result (out.new.items ≡ out.old.items ++ waiting_text chosen.now action.now) }
{
    put(out, action.name.as_slice())?;
    put(out, b" waits: its guard is false where the block begins")?;
    put_choices(out, &action.choices, chosen)?;
    Ok(())
}

/// The same of the refined action.
fn put_waits(out: &mut Vec<u8>, route: &Route<'_>, chosen: &List<Value>) -> Result<(), Memory>
    ensures { OnOk result (out.new.items ≡ out.old.items ++ waits_text (told route.now) chosen.now) }
{
    match route.program.actions.as_slice().get(refined_number(route)) {
        Some(action) => put_waiting(out, action, chosen),
        None => Ok(()),
    }
}

/// What is said of a refined action that waits with these choices.
fn waits_text(alloc: Global, route: &Route<'_>, chosen: &List<Value>) -> Result<Vec<u8>, Memory>
    ensures { IfOk result (λ text. text.items ≡ waits_text (told route.now) chosen.now) }
{
    let mut text = Vec::new(alloc);
    put_waits(&mut text, route, chosen)?;
    Ok(text)
}

/// Puts the line of such an action behind the others.
fn push_wait(
    alloc: Global,
    lines: &mut Vec<Line>,
    route: &Route<'_>,
    chosen: &List<Value>,
) -> Result<(), Memory>
    requires { Fits route.now }
    ensures { OnOk result (lines.new.items ≡ lines.old.items
        ++ lost_at_end (told route.now) (waits_text (told route.now) chosen.now) ∷ []) }
{
    let text = waits_text(alloc, route, chosen)?;
    push_lost_at_end(alloc, lines, route, text.as_slice())
}

/// The refined action waits with these choices where the block begins.
pub(crate) fn push_waits(
    alloc: Global,
    lines: &mut Vec<Line>,
    route: &Route<'_>,
    chosen: &List<Value>,
) -> Result<(), Memory>
    requires { Fits route.now }
    ensures { OnOk result (lines.new.items ≡ lines.old.items ++ waits_lines (told route.now) chosen.now) }
{
    push_wait(alloc, lines, route, chosen)?;
    let begun = &route.path.beginning;
    let inputs = first(begun.locals.as_slice(), route.proc.params.len());
    push_guard(
        alloc,
        lines,
        route.program,
        refined_number(route),
        &begun.old,
        inputs,
        chosen.as_slice(),
    )
}

/// Puts the values behind what is there that an action gives to these globals and outputs.
fn put_gifts(
    out: &mut Vec<u8>,
    route: &Route<'_>,
    globals: &[Changed],
    outs: &[Changed],
) -> Result<(), Memory>
    ensures { OnOk result (out.new.items ≡ out.old.items
        ++ (given_text (global_names route.now.program.now.globals) globals.now
        ++ given_text (param_names route.now.proc.now.outs) outs.now)) }
{
    put_given(out, &global_names(route), globals)?;
    put_given(out, &out_names(route), outs)
}

/// Puts behind what is there that an action gives other values to these globals and outputs.
fn put_giving(
    out: &mut Vec<u8>,
    route: &Route<'_>,
    action: &Action,
    globals: &[Changed],
    outs: &[Changed],
) -> Result<(), Memory>
    ensures { OnOk result (out.new.items ≡ out.old.items ++ giving_text (told route.now) globals.now outs.now action.now) }
{
    put(out, action.name.as_slice())?;
    put(out, b" gives other values")?;
    put_gifts(out, route, globals, outs)?;
    Ok(())
}

/// The same of the refined action.
fn put_gives(
    out: &mut Vec<u8>,
    route: &Route<'_>,
    globals: &[Changed],
    outs: &[Changed],
) -> Result<(), Memory>
    ensures { OnOk result (out.new.items ≡ out.old.items ++ gives_text (told route.now) globals.now outs.now) }
{
    match route.program.actions.as_slice().get(refined_number(route)) {
        Some(action) => put_giving(out, route, action, globals, outs),
        None => Ok(()),
    }
}

/// What is said of a refined action that gives other values.
fn gives_text(
    alloc: Global,
    route: &Route<'_>,
    globals: &[Changed],
    outs: &[Changed],
) -> Result<Vec<u8>, Memory>
    ensures { IfOk result (λ text. text.items ≡ gives_text (told route.now) globals.now outs.now) }
{
    let mut text = Vec::new(alloc);
    put_gives(&mut text, route, globals, outs)?;
    Ok(text)
}

/// The refined action gives other values to these globals and outputs.
pub(crate) fn push_gives(
    alloc: Global,
    lines: &mut Vec<Line>,
    route: &Route<'_>,
    globals: &[Changed],
    outs: &[Changed],
) -> Result<(), Memory>
    requires { Fits route.now }
    ensures { OnOk result (lines.new.items ≡ lines.old.items
        ++ lost_at_end (told route.now) (gives_text (told route.now) globals.now outs.now) ∷ []) }
{
    let text = gives_text(alloc, route, globals, outs)?;
    push_lost_at_end(alloc, lines, route, text.as_slice())
}

// ---- ranks

/// What is said of a rank that stays.
fn rank_text(alloc: Global, before: &Value, after: &Value) -> Result<Vec<u8>, Memory>
    ensures { IfOk result (λ text. text.items ≡ rank_text before.now after.now) }
{
    let mut text = Vec::from_slice(alloc, b"the rank was ")?;
    put_value_text(&mut text, before)?;
    put(&mut text, b" and is ")?;
    put_value_text(&mut text, after)?;
    Ok(text)
}

/// The rank of the loop isn't less when the path is back there.
pub(crate) fn push_rank(
    alloc: Global,
    lines: &mut Vec<Line>,
    route: &Route<'_>,
    before: &Value,
    after: &Value,
) -> Result<(), Memory>
    requires { Fits route.now }
    ensures { OnOk result (lines.new.items ≡ lines.old.items
        ++ lost_at (told route.now) route.now.cut.statement (rank_text before.now after.now) ∷ []) }
{
    let text = rank_text(alloc, before, after)?;
    push_lost(
        alloc,
        lines,
        route,
        route.cut.statement as usize,
        text.as_slice(),
    )
}
