// Why an outline's invariant is false in a store.
ghost use Rattle.std.specs.Prelude.{◌≡◌, ◌++◌, ◌∷◌, [], ◌<◌, ◌^◌, length, OnOk};
ghost use Rattle.civl_tree.specs.Numbering.{init_item};
ghost use Rattle.civl_tree.specs.SpellingProgram.{spell_program};
ghost use Rattle.civl_outlines.specs.SpellingOutline.{spell_outline};
ghost use Rattle.civl_places.specs.Starts.{item_start};
ghost use Rattle.civl_goal_stories.specs.GoalStories.{hold_parts, invariant_parts, start_story};

use crate::lines::push_error;
use crate::places::{hold_count, holds_start};
use civl_firing::Store;
use civl_firing::setting::at_start;
use civl_lines::{Line, Shown, push_parts};
use civl_outlines::Outline;
use civl_places::item_token;
use civl_reasons::Part;
use civl_tree::{Memory, Program};
use std::alloc::Global;

/// Puts the false parts of all holds behind the others.
pub(crate) fn push_invariant(
    alloc: Global,
    lines: &mut Vec<Line>,
    outline: &Outline,
    store: &Store,
) -> Result<(), Memory>
    requires { length (spell_outline outline.now) < 2 ^ 64 }
    ensures { OnOk result (lines.new.items ≡ lines.old.items ++ invariant_parts outline.now store.now) }
{
    let names = at_start(outline.program.globals.as_slice(), store);
    let mut at = holds_start(outline);
    for hold in outline.holds.as_slice() {
        let part = Part {
            token: at + 1,
            expr: hold,
        };
        push_parts(alloc, lines, &names, &part)?;
        at += hold_count(hold);
    }
    Ok(())
}

/// The token of `init`.
fn init_token(program: &Program) -> usize
    requires { length (spell_program program.now) < 2 ^ 64 }
    ensures { result ≡ item_start program.now (init_item program.now) }
{
    match item_token(program, program.globals.len()) {
        Some(at) => at,
        None => unreachable!(),
    }
}

/// The story of an initial store in which the invariant is false, behind the others.
pub(crate) fn push_start(
    alloc: Global,
    lines: &mut Vec<Line>,
    outline: &Outline,
    store: &Store,
) -> Result<(), Memory>
    requires { length (spell_outline outline.now) < 2 ^ 64 }
    ensures { OnOk result (lines.new.items ≡ lines.old.items ++ start_story outline.now store.now) }
{
    let at = init_token(&outline.program);
    push_error(
        alloc,
        lines,
        at,
        Shown::Tokens(1),
        b"an initial store without the invariant",
    )?;
    push_invariant(alloc, lines, outline, store)?;
    Ok(())
}
