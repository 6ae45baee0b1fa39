// The story of a goal.
ghost use Rattle.std.specs.Prelude.{◌≡◌, ◌++◌, ◌<◌, ◌^◌, length, OnOk};
ghost use Rattle.civl_outlines.specs.SpellingOutline.{spell_outline};
ghost use Rattle.civl_goal_stories.specs.GoalStories.{goal_story};

use crate::beginnings::push_begin;
use crate::holds::push_start;
use crate::statements::{push_break, push_fail, push_interference, push_lead};
use civl_action_stories::push_loss_story;
use civl_goal_losses::GoalLoss;
use civl_goals::Goal;
use civl_lines::Line;
use civl_outlines::Outline;
use civl_tree::Memory;
use std::alloc::Global;

/// Tells by what values violate a goal of an outline, behind the lines that are there: what is assumed before the statement, what it does,
/// and the gate, the assert, the invariant or the note that is false then; of another thread's note whose values its names stand for. Of
/// formulas that are false their innermost false parts are told, each with the values of the names that it reads. The loss is that of the
/// goal. The outline's spelling has fewer than 2^64 tokens.
///
/// # Errors
///
/// For want of memory; then a front of the story may be there.
#[tactic(auto, unfolding(crate::specs::GoalStories::goal_story))]
pub fn push_goal_story(
    alloc: Global,
    lines: &mut Vec<Line>,
    outline: &Outline,
    goal: Goal,
    loss: &GoalLoss,
) -> Result<(), Memory>
    requires { length (spell_outline outline.now) < 2 ^ 64 }
    ensures { OnOk result (lines.new.items ≡ lines.old.items ++ goal_story outline.now goal loss.now) }
{
    match loss {
        GoalLoss::Starts(store) => push_start(alloc, lines, outline, store),
        GoalLoss::Begins(first) => push_begin(alloc, lines, outline, goal, first),
        GoalLoss::Loses(store, instance, effect, lost) => push_loss_story(
            alloc,
            lines,
            &outline.program,
            store,
            instance,
            effect,
            lost,
        ),
        GoalLoss::Fails(here, fault) => push_fail(alloc, lines, outline, here, fault),
        GoalLoss::Breaks(here, there) => push_break(alloc, lines, outline, here, there),
        GoalLoss::Leads(here, there) => push_lead(alloc, lines, outline, here, there),
        GoalLoss::Interferes(here, there, other) => {
            push_interference(alloc, lines, outline, here, there, other)
        }
    }
}
