// The story of a condition.
ghost use Rattle.std.specs.Prelude.{◌≡◌, ◌<◌, ◌^◌, ◌++◌, [], OnOk, length, Contains, if◌then◌else◌};
ghost use Rattle.std.specs.Option.{option_map_or};
ghost use Rattle.civl_tree.specs.Numbered.{IsNumbered};
ghost use Rattle.civl_tree.specs.SpellingProgram.{spell_program};
ghost use Rattle.civl_conditions.specs.Listed.{conditions};
ghost use Rattle.civl_assumptions.specs.Lines.{assumed_lines};
ghost use Rattle.civl_linear.specs.Cuts.{all_held};
ghost use Rattle.civl_losses.specs.Losses.{loss};
ghost use Rattle.civl_path_stories.specs.Paths.{path_story};
ghost use Rattle.civl_lines.specs.Tokens.{AreTokens};
ghost use Rattle.civl_explain_command.specs.Stories.{condition_story, story_lines, story_text};

use crate::manner::Manner;
use civl_action_stories::push_violation;
use civl_assumptions::push_assumed;
use civl_bits::Value;
use civl_clashes::violation;
use civl_conditions::Condition;
use civl_layers::{Held, Layered};
use civl_lines::{Line, Text, put_lines};
use civl_losses::loss_of;
use civl_marks::put_marks;
use civl_path_stories::push_path_story;
use civl_tree::Memory;
use std::alloc::Global;

/// A program whose conditions are told: as it is layered, with the names that are held at its cuts.
#[derive(Clone, Copy)]
pub(crate) struct Told<'a> {
    pub src: &'a Layered,
    pub held: &'a Held,
}

/// Adds the story of a condition on a path.
fn push_path(
    alloc: Global,
    lines: &mut Vec<Line>,
    told: &Told<'_>,
    condition: &Condition,
    values: &[Value],
) -> Result<(), Memory>
    requires listed { Contains (conditions told.now.src.now) condition.now }
    requires held { told.now.held.now.cuts ≡ all_held told.now.src.now }
    requires short { length (spell_program told.now.src.now) < 2 ^ 64 }
    ensures { OnOk result (lines.new.items ≡ lines.old.items
        ++ option_map_or (path_story told.now.src.now condition.now values.now) (loss told.now.src.now condition.now values.now) []) }
{
    match loss_of(alloc, told.src, told.held, condition, values)? {
        Some(lost) => push_path_story(alloc, lines, told.src, condition, values, &lost),
        None => Ok(()),
    }
}

/// Adds the story of a condition.
fn push_story(
    alloc: Global,
    lines: &mut Vec<Line>,
    told: &Told<'_>,
    condition: &Condition,
    values: &[Value],
) -> Result<(), Memory>
    requires listed { Contains (conditions told.now.src.now) condition.now }
    requires held { told.now.held.now.cuts ≡ all_held told.now.src.now }
    requires short { length (spell_program told.now.src.now) < 2 ^ 64 }
    ensures { OnOk result (lines.new.items ≡ lines.old.items ++ condition_story told.now.src.now condition.now values.now) }
{
    match violation(alloc, told.src, told.held, condition, values)? {
        Some(found) => push_violation(alloc, lines, told.src, condition, values, &found),
        None => push_path(alloc, lines, told, condition, values),
    }
}

/// Adds what a condition assumes.
fn push_assumptions(
    alloc: Global,
    lines: &mut Vec<Line>,
    with_assumed: bool,
    told: &Told<'_>,
    condition: &Condition,
    values: &[Value],
) -> Result<(), Memory>
    requires held { told.now.held.now.cuts ≡ all_held told.now.src.now }
    requires short { length (spell_program told.now.src.now) < 2 ^ 64 }
    ensures { OnOk result (lines.new.items ≡ lines.old.items
        ++ (if with_assumed then assumed_lines told.now.src.now condition.now values.now else [])) }
{
    if with_assumed {
        push_assumed(alloc, lines, told.src, told.held, condition, values)
    } else {
        Ok(())
    }
}

/// Adds what a condition assumes, where it is asked for, and its story.
fn push_lines(
    alloc: Global,
    lines: &mut Vec<Line>,
    with_assumed: bool,
    told: &Told<'_>,
    condition: &Condition,
    values: &[Value],
) -> Result<(), Memory>
    requires listed { Contains (conditions told.now.src.now) condition.now }
    requires held { told.now.held.now.cuts ≡ all_held told.now.src.now }
    requires short { length (spell_program told.now.src.now) < 2 ^ 64 }
    ensures { OnOk result (lines.new.items ≡ lines.old.items
        ++ story_lines with_assumed told.now.src.now condition.now values.now) }
{
    push_assumptions(alloc, lines, with_assumed, told, condition, values)?;
    push_story(alloc, lines, told, condition, values)
}

/// Puts the story of a condition at its values behind what is there.
///
/// # Errors
///
/// For want of memory.
pub(crate) fn put_story(
    alloc: Global,
    out: &mut Vec<u8>,
    manner: Manner,
    text: &Text<'_>,
    told: &Told<'_>,
    condition: &Condition,
    values: &[Value],
) -> Result<(), Memory>
    requires listed { Contains (conditions told.now.src.now) condition.now }
    requires held { told.now.held.now.cuts ≡ all_held told.now.src.now }
    requires short { length (spell_program told.now.src.now) < 2 ^ 64 }
    requires tokens { AreTokens text.now.bytes.now text.now.tokens.now }
    ensures { OnOk result (out.new.items ≡ out.old.items
        ++ story_text manner text.now.bytes.now text.now.tokens.now told.now.src.now condition.now values.now) }
{
    put_marks(alloc, out, told.src, told.held, condition, values)?;
    let mut lines = Vec::new(alloc);
    push_lines(alloc, &mut lines, manner.assumed, told, condition, values)?;
    put_lines(out, manner.form, text, lines.as_slice())
}
