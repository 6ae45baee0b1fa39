// What the goals of a statement assume.
ghost use Rattle.std.specs.Prelude.{◌≡◌, ◌++◌, ◌<◌, ◌^◌, length, OnOk};
ghost use Rattle.civl_outlines.specs.SpellingOutline.{spell_outline};
ghost use Rattle.civl_goal_stories.specs.Assumed.{elsewhere_line, elsewhere_lines, goal_assumed, hold_lines};

use crate::lines::push_info;
use crate::notes::note_number;
use crate::places::{hold_count, holds_start, note_start};
use civl_goals::Goal;
use civl_lines::{Line, Shown};
use civl_outlines::Outline;
use civl_tree::Memory;
use std::alloc::Global;

/// Puts the holds behind the others.
fn push_holds(alloc: Global, lines: &mut Vec<Line>, outline: &Outline) -> Result<(), Memory>
    requires { length (spell_outline outline.now) < 2 ^ 64 }
    ensures { OnOk result (lines.new.items ≡ lines.old.items ++ hold_lines outline.now) }
{
    let mut at = holds_start(outline);
    for hold in outline.holds.as_slice() {
        push_info(alloc, lines, at, Shown::Head, b"is assumed")?;
        at += hold_count(hold);
    }
    Ok(())
}

/// Puts the note before a statement of a procedure that there is behind the others, if one is written there.
fn push_noted(
    alloc: Global,
    lines: &mut Vec<Line>,
    outline: &Outline,
    number: usize,
    statement: usize,
) -> Result<(), Memory>
    requires short { length (spell_outline outline.now) < 2 ^ 64 }
    requires there { number < length outline.now.program.procs }
    ensures { OnOk result (lines.new.items ≡ lines.old.items ++ elsewhere_line outline.now number statement) }
{
    match note_number(outline, number, statement) {
        Some(found) => push_info(
            alloc,
            lines,
            note_start(outline, found),
            Shown::Head,
            b"is assumed of another thread",
        ),
        None => Ok(()),
    }
}

/// The same, if the procedure is there.
fn push_elsewhere(
    alloc: Global,
    lines: &mut Vec<Line>,
    outline: &Outline,
    number: usize,
    statement: usize,
) -> Result<(), Memory>
    requires { length (spell_outline outline.now) < 2 ^ 64 }
    ensures { OnOk result (lines.new.items ≡ lines.old.items ++ elsewhere_lines outline.now number statement) }
{
    match outline.program.procs.as_slice().get(number) {
        Some(_) => push_noted(alloc, lines, outline, number, statement),
        None => Ok(()),
    }
}

/// The holds, and of another thread the note before this statement of its procedure.
fn push_beside(
    alloc: Global,
    lines: &mut Vec<Line>,
    outline: &Outline,
    number: usize,
    statement: usize,
) -> Result<(), Memory>
    requires { length (spell_outline outline.now) < 2 ^ 64 }
    ensures { OnOk result (lines.new.items ≡ lines.old.items
        ++ (hold_lines outline.now ++ elsewhere_lines outline.now number statement)) }
{
    push_holds(alloc, lines, outline)?;
    push_elsewhere(alloc, lines, outline, number, statement)
}

/// Tells what a goal of a statement assumes beside the note before it and permissions, behind the lines that are there: each hold, and the
/// note of another thread before the statement at which this stands. Of the other goals nothing is told. The outline's spelling has fewer
/// than 2^64 tokens.
///
/// # Errors
///
/// For want of memory; then a front of the lines may be there.
pub fn push_goal_assumed(
    alloc: Global,
    lines: &mut Vec<Line>,
    outline: &Outline,
    goal: Goal,
) -> Result<(), Memory>
    requires { length (spell_outline outline.now) < 2 ^ 64 }
    ensures { OnOk result (lines.new.items ≡ lines.old.items ++ goal_assumed outline.now goal) }
{
    match goal {
        Goal::Safe(_, _) | Goal::Keep(_, _) | Goal::Spawn(_, _) | Goal::Next(_, _) => {
            push_holds(alloc, lines, outline)
        }
        Goal::Other(_, _, number, statement) => push_beside(
            alloc,
            lines,
            outline,
            number as usize,
            statement as usize,
        ),
        Goal::Invariant | Goal::Thread(_) | Goal::Linear(_) => Ok(()),
    }
}
