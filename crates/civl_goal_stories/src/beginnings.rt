// First frames of which the note is false.
ghost use Rattle.std.specs.Prelude.{◌≡◌, ◌++◌, ◌∷◌, [], ◌<◌, ◌^◌, length, OnOk, slice_get, codes};
ghost use Rattle.std.specs.Option.{option_map_or};
ghost use Rattle.civl_tree.specs.Numbering.{thread_item};
ghost use Rattle.civl_tree.specs.SpellingProgram.{spell_program};
ghost use Rattle.civl_outlines.specs.SpellingOutline.{spell_outline};
ghost use Rattle.civl_lines.specs.declared.line.Shown.TheVariants.{Head};
ghost use Rattle.civl_places.specs.Starts.{item_start};
ghost use Rattle.civl_path_stories.specs.Paths.{info};
ghost use Rattle.civl_goal_stories.specs.Frames.{assumed_lines, token};
ghost use Rattle.civl_goal_stories.specs.GoalStories.{begin_story, beginner_lines};

use crate::frames::{push_assumed, push_frame, push_note};
use crate::lines::{push_info, token};
use civl_goal_losses::Moment;
use civl_goals::Goal;
use civl_lines::{Line, Shown};
use civl_outlines::Outline;
use civl_places::item_token;
use civl_tree::{Memory, Program};
use std::alloc::Global;

/// The token of a declared thread that there is.
fn thread_token(program: &Program, number: usize) -> usize
    requires short { length (spell_program program.now) < 2 ^ 64 }
    requires there { number < length program.now.threads }
    ensures { result ≡ item_start program.now (thread_item program.now number) }
{
    let procs = program.globals.len() + 1 + program.invariants.len() + program.actions.len();
    let item = procs + program.procs.len() + number;
    match item_token(program, item) {
        Some(at) => at,
        None => unreachable!(),
    }
}

/// Puts the declared thread with this number behind the others.
fn push_thread(
    alloc: Global,
    lines: &mut Vec<Line>,
    program: &Program,
    number: usize,
) -> Result<(), Memory>
    requires { length (spell_program program.now) < 2 ^ 64 }
    ensures { OnOk result (lines.new.items ≡ lines.old.items
        ++ option_map_or (λ t. info (item_start program.now (thread_item program.now number)) Head (codes "in this initial store") ∷ [])
        (slice_get program.now.threads number) []) }
{
    match program.threads.as_slice().get(number) {
        Some(_) => push_info(
            alloc,
            lines,
            thread_token(program, number),
            Shown::Head,
            b"in this initial store",
        ),
        None => Ok(()),
    }
}

/// Puts what is assumed before the statement that spawns behind the others, and the statement.
fn push_spawn(
    alloc: Global,
    lines: &mut Vec<Line>,
    outline: &Outline,
    number: usize,
    statement: usize,
) -> Result<(), Memory>
    requires { length (spell_outline outline.now) < 2 ^ 64 }
    ensures { OnOk result (lines.new.items ≡ lines.old.items ++ (assumed_lines outline.now number statement
        ++ info (token outline.now.program number statement) Head [] ∷ [])) }
{
    push_assumed(alloc, lines, outline, number, statement)?;
    let at = token(&outline.program, number, statement);
    push_info(alloc, lines, at, Shown::Head, b"")?;
    Ok(())
}

/// Puts what begins behind the others.
fn push_beginner(
    alloc: Global,
    lines: &mut Vec<Line>,
    outline: &Outline,
    goal: Goal,
) -> Result<(), Memory>
    requires { length (spell_outline outline.now) < 2 ^ 64 }
    ensures { OnOk result (lines.new.items ≡ lines.old.items ++ beginner_lines outline.now goal) }
{
    match goal {
        Goal::Thread(number) => push_thread(alloc, lines, &outline.program, number as usize),
        Goal::Spawn(number, statement) => {
            push_spawn(alloc, lines, outline, number as usize, statement as usize)
        }
        Goal::Invariant => Ok(()),
        Goal::Linear(_) => Ok(()),
        Goal::Safe(_, _) => Ok(()),
        Goal::Keep(_, _) => Ok(()),
        Goal::Next(_, _) => Ok(()),
        Goal::Other(_, _, _, _) => Ok(()),
    }
}

/// The story of a first frame of which the note is false, behind the others.
pub(crate) fn push_begin(
    alloc: Global,
    lines: &mut Vec<Line>,
    outline: &Outline,
    goal: Goal,
    first: &Moment,
) -> Result<(), Memory>
    requires { length (spell_outline outline.now) < 2 ^ 64 }
    ensures { OnOk result (lines.new.items ≡ lines.old.items ++ begin_story outline.now goal first.now) }
{
    push_beginner(alloc, lines, outline, goal)?;
    push_frame(alloc, lines, &outline.program, b"begins", &first.frame)?;
    push_note(
        alloc,
        lines,
        outline,
        b"the note here is false",
        &first.store,
        &first.frame,
    )?;
    Ok(())
}
