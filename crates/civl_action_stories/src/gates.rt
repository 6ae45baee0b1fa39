// K4, K6 and K7: what one action does to the gate of another; K8: an action that waits at its offered choices.
ghost use Rattle.std.specs.Prelude.{◌≡◌, ◌∷◌, ◌++◌, ◌<◌, ◌^◌, OnOk, length};
ghost use Rattle.civl_tree.specs.SpellingProgram.{spell_program};
ghost use Rattle.civl_action_stories.specs.Actors.{called, gate_parts, goes_wrong};
ghost use Rattle.civl_action_stories.specs.Gates.{reveal_story, spoil_story, wait_story};
ghost use Rattle.civl_action_stories.specs.inner.Acting.{meant};

use crate::acting::Acting;
use crate::lines::{called_wrong, makes, push_gate, push_guard};
use civl_clashes::Effect;
use civl_firing::Store;
use civl_lines::Line;
use civl_tree::{Memory, Program};
use std::alloc::Global;

/// What is wrong with an action's gate, and why it is false in a store, behind the other lines.
fn push_wrong_gate(
    alloc: Global,
    lines: &mut Vec<Line>,
    program: &Program,
    before: &[u8],
    y: &Acting<'_>,
    behind: &[u8],
    store: &Store,
) -> Result<(), Memory>
    requires { length (spell_program program.now) < 2 ^ 64 }
    ensures { OnOk result (lines.new.items ≡ lines.old.items
        ++ (goes_wrong (meant y.now) (before.now ++ (called (meant y.now) ++ behind.now))
        ∷ gate_parts program.now (meant y.now) store.now)) }
{
    lines.push(called_wrong(alloc, before, y, behind)?)?;
    push_gate(alloc, lines, program, y, store)
}

/// The story of K4 and K6, behind the other lines.
pub(crate) fn push_spoil(
    alloc: Global,
    lines: &mut Vec<Line>,
    program: &Program,
    store: &Store,
    effect: &Effect,
    x: &Acting<'_>,
    y: &Acting<'_>,
) -> Result<(), Memory>
    requires { length (spell_program program.now) < 2 ^ 64 }
    ensures { OnOk result (lines.new.items ≡ lines.old.items
        ++ spoil_story program.now store.now effect.now (meant x.now) (meant y.now)) }
{
    lines.push(makes(alloc, b"first ", program, x, store, effect)?)?;
    push_wrong_gate(
        alloc,
        lines,
        program,
        b"then the gate of ",
        y,
        b" is false",
        &effect.store,
    )
}

/// The story of K7, behind the other lines.
pub(crate) fn push_reveal(
    alloc: Global,
    lines: &mut Vec<Line>,
    program: &Program,
    store: &Store,
    effect: &Effect,
    x: &Acting<'_>,
    y: &Acting<'_>,
) -> Result<(), Memory>
    requires { length (spell_program program.now) < 2 ^ 64 }
    ensures { OnOk result (lines.new.items ≡ lines.old.items
        ++ reveal_story program.now store.now effect.now (meant x.now) (meant y.now)) }
{
    lines.push(makes(alloc, b"first ", program, x, store, effect)?)?;
    push_wrong_gate(
        alloc,
        lines,
        program,
        b"the gate of ",
        y,
        b" is true only then",
        store,
    )
}

/// The story of K8, behind the other lines.
pub(crate) fn push_wait(
    alloc: Global,
    lines: &mut Vec<Line>,
    program: &Program,
    store: &Store,
    x: &Acting<'_>,
) -> Result<(), Memory>
    requires { length (spell_program program.now) < 2 ^ 64 }
    ensures { OnOk result (lines.new.items ≡ lines.old.items ++ wait_story program.now store.now (meant x.now)) }
{
    lines.push(called_wrong(
        alloc,
        b"",
        x,
        b" waits: its guard is false at the offered choices",
    )?)?;
    push_guard(alloc, lines, program, x, store)
}
