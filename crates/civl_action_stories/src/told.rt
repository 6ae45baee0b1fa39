// The story of a violation.
ghost use Rattle.std.specs.Prelude.{◌≡◌, ◌++◌, ◌<◌, ◌^◌, OnOk, length};
ghost use Rattle.civl_tree.specs.SpellingProgram.{spell_program};
ghost use Rattle.civl_action_stories.specs.Actors.{of_actor};
ghost use Rattle.civl_action_stories.specs.Losses.{loss_story};
ghost use Rattle.civl_action_stories.specs.Clashes.{clash_story};
ghost use Rattle.civl_action_stories.specs.Gates.{spoil_story, reveal_story, wait_story};
ghost use Rattle.civl_action_stories.specs.Strays.{stray_story};
ghost use Rattle.civl_action_stories.specs.Told.{of_pair, violation_story};

use crate::acting::actor_of;
use crate::clashes::{is_y_first, push_clash};
use crate::gates::{push_reveal, push_spoil, push_wait};
use crate::losses::push_loss;
use crate::starts::push_start;
use crate::strays::push_stray;
use civl_bits::Value;
use civl_clashes::{Clash, Effect, Instance, Loss, Pair, Violation};
use civl_conditions::Condition;
use civl_firing::Store;
use civl_layers::{Layered, program};
use civl_lines::Line;
use civl_tree::{Memory, Program};
use std::alloc::Global;

/// The story of K2, behind the lines that are there: what an action does in this store, and the permission that comes out twice or
/// from nowhere. Nothing is told of an action that the program doesn't have.
///
/// # Errors
///
/// For want of memory.
pub fn push_loss_story(
    alloc: Global,
    lines: &mut Vec<Line>,
    program: &Program,
    store: &Store,
    instance: &Instance,
    effect: &Effect,
    loss: &Loss,
) -> Result<(), Memory>
    requires { length (spell_program program.now) < 2 ^ 64 }
    ensures { OnOk result (lines.new.items ≡ lines.old.items
        ++ of_actor program.now instance.now (loss_story program.now store.now effect.now loss.now)) }
{
    match actor_of(program, instance) {
        Some(x) => push_loss(alloc, lines, program, store, effect, loss, &x),
        None => Ok(()),
    }
}

/// K3 and K5.
fn of_clash(
    alloc: Global,
    lines: &mut Vec<Line>,
    program: &Program,
    y_first: bool,
    pair: &Pair,
    clash: &Clash,
) -> Result<(), Memory>
    requires { length (spell_program program.now) < 2 ^ 64 }
    ensures { OnOk result (lines.new.items ≡ lines.old.items
        ++ of_pair program.now pair.now (clash_story program.now pair.now.store y_first clash.now)) }
{
    match actor_of(program, &pair.first) {
        Some(x) => match actor_of(program, &pair.second) {
            Some(y) => push_clash(alloc, lines, program, &pair.store, y_first, clash, &x, &y),
            None => Ok(()),
        },
        None => Ok(()),
    }
}

/// K4 and K6.
fn of_spoil(
    alloc: Global,
    lines: &mut Vec<Line>,
    program: &Program,
    pair: &Pair,
    effect: &Effect,
) -> Result<(), Memory>
    requires { length (spell_program program.now) < 2 ^ 64 }
    ensures { OnOk result (lines.new.items ≡ lines.old.items
        ++ of_pair program.now pair.now (spoil_story program.now pair.now.store effect.now)) }
{
    match actor_of(program, &pair.first) {
        Some(x) => match actor_of(program, &pair.second) {
            Some(y) => push_spoil(alloc, lines, program, &pair.store, effect, &x, &y),
            None => Ok(()),
        },
        None => Ok(()),
    }
}

/// K7.
fn of_reveal(
    alloc: Global,
    lines: &mut Vec<Line>,
    program: &Program,
    pair: &Pair,
    effect: &Effect,
) -> Result<(), Memory>
    requires { length (spell_program program.now) < 2 ^ 64 }
    ensures { OnOk result (lines.new.items ≡ lines.old.items
        ++ of_pair program.now pair.now (reveal_story program.now pair.now.store effect.now)) }
{
    match actor_of(program, &pair.first) {
        Some(x) => match actor_of(program, &pair.second) {
            Some(y) => push_reveal(alloc, lines, program, &pair.store, effect, &x, &y),
            None => Ok(()),
        },
        None => Ok(()),
    }
}

/// K8.
fn of_wait(
    alloc: Global,
    lines: &mut Vec<Line>,
    program: &Program,
    store: &Store,
    instance: &Instance,
) -> Result<(), Memory>
    requires { length (spell_program program.now) < 2 ^ 64 }
    ensures { OnOk result (lines.new.items ≡ lines.old.items
        ++ of_actor program.now instance.now (wait_story program.now store.now)) }
{
    match actor_of(program, instance) {
        Some(x) => push_wait(alloc, lines, program, store, &x),
        None => Ok(()),
    }
}

/// K11.
fn of_stray(
    alloc: Global,
    lines: &mut Vec<Line>,
    src: &Layered,
    condition: &Condition,
    values: &[Value],
    store: &Store,
    instance: &Instance,
    effect: &Effect,
) -> Result<(), Memory>
    requires { length (spell_program src.now) < 2 ^ 64 }
    ensures { OnOk result (lines.new.items ≡ lines.old.items
        ++ of_actor src.now instance.now (stray_story src.now condition.now values.now store.now effect.now)) }
{
    match actor_of(program(src), instance) {
        Some(x) => push_stray(alloc, lines, src, condition, values, store, effect, &x),
        None => Ok(()),
    }
}

/// Tells how values violate a condition on actions, behind the lines that are there: what its actions do in the order that is
/// kept, and in the exchanged one; the gate that one makes false or true for the other; the guard, the permission, the invariant or
/// the other thread's yield that fails. Of formulas that are false their innermost false parts are told, each with the values of
/// the names that it reads. The values are one for each variable of the condition, and the violation is how they violate it.
/// Nothing is told of an action that the program doesn't have.
///
/// # Errors
///
/// For want of memory.
#[tactic(auto, unfolding(crate::specs::Told::violation_story))]
pub fn push_violation(
    alloc: Global,
    lines: &mut Vec<Line>,
    src: &Layered,
    condition: &Condition,
    values: &[Value],
    violation: &Violation,
) -> Result<(), Memory>
    requires { length (spell_program src.now) < 2 ^ 64 }
    ensures { OnOk result (lines.new.items ≡ lines.old.items ++ violation_story src.now condition.now values.now violation.now) }
{
    let program = program(src);
    match violation {
        Violation::Starts(store) => push_start(alloc, lines, program, condition, store),
        Violation::Loses(store, instance, effect, loss) => {
            push_loss_story(alloc, lines, program, store, instance, effect, loss)
        }
        Violation::Clashes(pair, clash) => of_clash(
            alloc,
            lines,
            program,
            is_y_first(condition),
            pair,
            clash,
        ),
        Violation::Spoils(pair, effect) => of_spoil(alloc, lines, program, pair, effect),
        Violation::Reveals(pair, effect) => of_reveal(alloc, lines, program, pair, effect),
        Violation::Waits(store, instance) => of_wait(alloc, lines, program, store, instance),
        Violation::Strays(store, instance, effect) => {
            of_stray(
                alloc, lines, src, condition, values, store, instance, effect,
            )
        }
    }
}
