// Whole stories.
ghost use Rattle.std.specs.Prelude.{◌≡◌, ◌++◌, ◌<◌, ◌≤◌, ◌^◌, [], Some, length, slice_get, IfOk, OnOk};
ghost use Rattle.std.specs.Option.{option_map_or};
ghost use Rattle.civl_tree.specs.Numbered.{IsNumbered};
ghost use Rattle.civl_tree.specs.SpellingProgram.{spell_program};
ghost use Rattle.civl_layers.specs.Cuts.{proc_cuts};
ghost use Rattle.civl_conditions.specs.Steps.{of_cut};
ghost use Rattle.civl_conditions.specs.Variables.{variables};
ghost use Rattle.civl_losses.specs.Stories.{story, story_of};
ghost use Rattle.civl_losses.specs.Stories.{IsAtStep};
ghost use Rattle.civl_path_stories.specs.Paths.{course_lines, loss_lines, path_story, story_lines, target_lines, told_lines};
ghost use Rattle.civl_path_stories.specs.inner.Routes.{told, Fits};

use crate::begin::{push_around, push_begin};
use crate::blocks::{push_changes, push_gives, push_rank, push_waits};
use crate::ends::{push_lost, push_lost_at_end, push_lost_at_exit};
use crate::gates::{push_false_assert, push_false_gate};
use crate::notes::push_false_note;
use crate::passed::push_passed;
use crate::route::Route;
use crate::targets::{push_target, target_text};
use civl_bits::Value;
use civl_conditions::{Condition, Part, Target, variables};
use civl_layers::{Layered, cuts, program};
use civl_lines::Line;
use civl_losses::{Loss, Story, story_of};
use civl_tree::{Memory, Proc};
use std::alloc::Global;

/// How many values a path begins with.
fn value_count(
    alloc: Global,
    src: &Layered,
    step: u32,
    number: u32,
    cut: u32,
) -> Result<usize, Memory>
    ensures { IfOk result (λ count. count ≡ length (variables src.now (Condition.Path Part.Gate step number cut))) }
{
    let found = variables(alloc, src, &Condition::Path(Part::Gate, step, number, cut))?;
    Ok(found.len())
}

/// The target is lost where the path ends.
fn push_lost_target(
    alloc: Global,
    lines: &mut Vec<Line>,
    src: &Layered,
    route: &Route<'_>,
    target: Target,
    values: &[Value],
) -> Result<(), Memory>
    requires fits { Fits route.now }
    requires same { route.now.program.now ≡ src.now }
    ensures { OnOk result (lines.new.items ≡ lines.old.items ++ target_lines (told route.now) values.now target) }
{
    push_lost_at_end(alloc, lines, route, target_text(target))?;
    let at = value_count(alloc, src, route.step, route.number, route.from)?;
    let store = &route.path.walked.end.store;
    push_target(alloc, lines, src, route.step, target, values, at, store)?;
    Ok(())
}

/// The same of a target that there may be.
fn push_target_lost(
    alloc: Global,
    lines: &mut Vec<Line>,
    src: &Layered,
    route: &Route<'_>,
    target: Option<Target>,
    values: &[Value],
) -> Result<(), Memory>
    requires fits { Fits route.now }
    requires same { route.now.program.now ≡ src.now }
    ensures { OnOk result (lines.new.items ≡ lines.old.items ++ option_map_or (target_lines (told route.now) values.now) target []) }
{
    match target {
        Some(target) => push_lost_target(alloc, lines, src, route, target, values),
        None => Ok(()),
    }
}

/// Puts the lines of what is lost behind the others.
fn push_loss(
    alloc: Global,
    lines: &mut Vec<Line>,
    src: &Layered,
    route: &Route<'_>,
    target: Option<Target>,
    values: &[Value],
    loss: &Loss,
) -> Result<(), Memory>
    requires fits { Fits route.now }
    requires same { route.now.program.now ≡ src.now }
    ensures { OnOk result (lines.new.items ≡ lines.old.items ++ loss_lines (told route.now) target values.now loss.now) }
{
    match loss {
        Loss::FalseGate(number, inputs) => { push_false_gate(alloc, lines, route, *number, inputs) }
        Loss::FalseAssert => push_false_assert(alloc, lines, route),
        Loss::FalseNote(end) => push_false_note(alloc, lines, route, *end),
        Loss::CommitAgain(statement) => {
            push_lost(alloc, lines, route, *statement, b"a second commit")
        }
        Loss::NoCommit => push_lost_at_exit(alloc, lines, route, b"the exit, without a commit"),
        Loss::Changes(globals, outs) => {
            push_changes(alloc, lines, route, globals.as_slice(), outs.as_slice())
        }
        Loss::ActionWaits(chosen) => push_waits(alloc, lines, route, chosen),
        Loss::ActionGives(globals, outs) => {
            push_gives(alloc, lines, route, globals.as_slice(), outs.as_slice())
        }
        Loss::RankStays(before, after) => push_rank(alloc, lines, route, before, after),
        Loss::TargetLost => push_target_lost(alloc, lines, src, route, target, values),
    }
}

/// Puts the lines of what a path passes and of what is lost on it behind the others.
fn push_course(
    alloc: Global,
    lines: &mut Vec<Line>,
    src: &Layered,
    route: &Route<'_>,
    target: Option<Target>,
    values: &[Value],
    loss: &Loss,
) -> Result<(), Memory>
    requires fits { Fits route.now }
    requires same { route.now.program.now ≡ src.now }
    ensures { OnOk result (lines.new.items ≡ lines.old.items ++ course_lines (told route.now) target values.now loss.now) }
{
    push_passed(
        alloc,
        lines,
        route,
        route.path.walked.passed.as_slice(),
        loss,
    )?;
    push_loss(alloc, lines, src, route, target, values, loss)
}

/// Puts the lines of a path, with what is around its beginning and what is lost on it, behind the others.
fn push_told(
    alloc: Global,
    lines: &mut Vec<Line>,
    src: &Layered,
    route: &Route<'_>,
    target: Option<Target>,
    values: &[Value],
    loss: &Loss,
) -> Result<(), Memory>
    requires fits { Fits route.now }
    requires same { route.now.program.now ≡ src.now }
    ensures { OnOk result (lines.new.items ≡ lines.old.items ++ told_lines (told route.now) target values.now loss.now) }
{
    push_begin(alloc, lines, route)?;
    push_around(alloc, lines, route)?;
    push_course(alloc, lines, src, route, target, values, loss)
}

/// A condition on paths: its step, the numbers of its procedure and its cut, and its target, if it has one.
#[derive(Clone, Copy)]
struct Asked {
    step: u32,
    number: u32,
    cut: u32,
    target: Option<Target>,
}

/// Puts the lines of this path of a procedure behind the others.
fn push_path_in(
    alloc: Global,
    lines: &mut Vec<Line>,
    src: &Layered,
    asked: &Asked,
    proc: &Proc,
    path: &Story,
    values: &[Value],
    loss: &Loss,
) -> Result<(), Memory>
    requires tokens { length (spell_program src.now) < 2 ^ 64 }
    requires numbered { IsNumbered src.now }
    requires found { slice_get src.now.procs asked.now.number ≡ Some proc.now }
    requires told { Some (story path.now) ≡ story_of src.now asked.now.step asked.now.number asked.now.cut values.now }
    ensures { OnOk result (lines.new.items ≡ lines.old.items
        ++ option_map_or (story_lines src.now asked.now.step asked.now.number asked.now.target values.now loss.now proc.now)
        (slice_get (proc_cuts proc.now) asked.now.cut) []) }
{
    let cuts = cuts(alloc, src, asked.number)?;
    match cuts.as_slice().get(asked.cut as usize) {
        Some(cut) => {
            let route = Route {
                program: program(src),
                step: asked.step,
                number: asked.number,
                proc,
                cuts: cuts.as_slice(),
                from: asked.cut,
                cut: *cut,
                path,
            };
            push_told(alloc, lines, src, &route, asked.target, values, loss)
        }
        None => Ok(()),
    }
}

/// Puts the lines of this path behind the others.
fn push_path(
    alloc: Global,
    lines: &mut Vec<Line>,
    src: &Layered,
    asked: &Asked,
    path: &Story,
    values: &[Value],
    loss: &Loss,
) -> Result<(), Memory>
    requires tokens { length (spell_program src.now) < 2 ^ 64 }
    requires told { Some (story path.now) ≡ story_of src.now asked.now.step asked.now.number asked.now.cut values.now }
    ensures { OnOk result (lines.new.items ≡ lines.old.items
        ++ of_cut src.now asked.now.number asked.now.cut []
        (story_lines src.now asked.now.step asked.now.number asked.now.target values.now loss.now)) }
{
    match program(src).procs.as_slice().get(asked.number as usize) {
        Some(proc) => push_path_in(alloc, lines, src, asked, proc, path, values, loss),
        None => Ok(()),
    }
}

/// Puts the lines of the path of a condition behind the others, if it has one.
fn push_story(
    alloc: Global,
    lines: &mut Vec<Line>,
    src: &Layered,
    asked: &Asked,
    values: &[Value],
    loss: &Loss,
) -> Result<(), Memory>
    requires tokens { length (spell_program src.now) < 2 ^ 64 }
    requires step { asked.now.step ≤ src.now.layers }
    ensures { OnOk result (lines.new.items ≡ lines.old.items
        ++ of_cut src.now asked.now.number asked.now.cut []
        (story_lines src.now asked.now.step asked.now.number asked.now.target values.now loss.now)) }
{
    match story_of(alloc, src, asked.step, asked.number, asked.cut, values)? {
        Some(path) => push_path(alloc, lines, src, asked, &path, values, loss),
        None => Ok(()),
    }
}

/// Tells the story of a condition K9 or K10 that fails at these values, behind the lines that are there: where its path begins, each
/// statement that the path passes, with what this changes, and by what the values violate the condition, with the parts of the formula
/// that is false there. The values are one for each variable of the condition, in their order, and the loss is theirs. A condition on
/// actions adds nothing. The step of the condition is one of the program, and the program's spelling has fewer than 2^64 tokens.
///
/// # Errors
///
/// For want of memory; then a front of the story may be there.
#[tactic(auto, unfolding(crate::specs::Paths::path_story))]
pub fn push_path_story(
    alloc: Global,
    lines: &mut Vec<Line>,
    src: &Layered,
    condition: &Condition,
    values: &[Value],
    loss: &Loss,
) -> Result<(), Memory>
    requires tokens { length (spell_program src.now) < 2 ^ 64 }
    requires step { IsAtStep src.now condition.now }
    ensures { OnOk result (lines.new.items ≡ lines.old.items ++ path_story src.now condition.now values.now loss.now) }
{
    match condition {
        Condition::Path(_, step, number, cut) => {
            let asked = Asked {
                step: *step,
                number: *number,
                cut: *cut,
                target: None,
            };
            push_story(alloc, lines, src, &asked, values, loss)
        }
        Condition::Block(step, number, cut, target) => {
            let asked = Asked {
                step: *step,
                number: *number,
                cut: *cut,
                target: Some(*target),
            };
            push_story(alloc, lines, src, &asked, values, loss)
        }
        Condition::Start(_, _) => Ok(()),
        Condition::Keep(_, _) => Ok(()),
        Condition::Pair(_, _, _, _) => Ok(()),
        Condition::Fire(_, _) => Ok(()),
        Condition::Act(_, _, _) => Ok(()),
    }
}
