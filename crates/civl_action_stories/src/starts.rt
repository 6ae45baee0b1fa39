// K1: an invariant that is false in an initial store.
ghost use Rattle.std.specs.Prelude.{◌≡◌, ◌++◌, ◌<◌, ◌^◌, IfOk, OnOk, length};
ghost use Rattle.civl_tree.specs.SpellingProgram.{spell_program};
ghost use Rattle.civl_tree.specs.Numbering.{invariant_item};
ghost use Rattle.civl_firing.specs.Scope.{global_values};
ghost use Rattle.civl_places.specs.Starts.{item_start};
ghost use Rattle.civl_action_stories.specs.Actors.{at_item, parts_of};
ghost use Rattle.civl_action_stories.specs.Starts.{invariant_place, invariant_start, invariant_story, start_story};

use crate::lines::{at_item, push_parts_of};
use civl_conditions::Condition;
use civl_firing::Store;
use civl_firing::setting::at_start;
use civl_lines::{Kind, Line};
use civl_places::{Formula, item_token};
use civl_tree::{Invariant, Memory, Program};
use std::alloc::Global;

/// The place among all these invariants of the one with this number among those of a step; behind them, where there is none.
#[tactic(auto, using(crate::proofs::Placing::placing))]
pub(crate) fn invariant_place(invariants: &[Invariant], step: u32, number: u32) -> usize
    ensures { result ≡ invariant_place step invariants.now number }
{
    let mut left = number;
    for at in 0..invariants.len() {
        if invariants[at].step == step {
            if left == 0 {
                return at;
            }
            left -= 1;
        }
    }
    invariants.len()
}

/// The token at which the item of an invariant begins that there is.
fn token_there(program: &Program, place: usize) -> usize
    requires short { length (spell_program program.now) < 2 ^ 64 }
    requires there { place < length program.now.invariants }
    ensures { result ≡ item_start program.now (invariant_item program.now place) }
{
    let before = program.globals.len() + 1;
    match item_token(program, before + place) {
        Some(token) => token,
        None => unreachable!(),
    }
}

/// The token at which the item of the invariant at this place begins, if there is one.
fn invariant_start(program: &Program, place: usize) -> Option<usize>
    requires { length (spell_program program.now) < 2 ^ 64 }
    ensures { result ≡ invariant_start program.now place }
{
    match program.invariants.as_slice().get(place) {
        Some(_) => Some(token_there(program, place)),
        None => None,
    }
}

/// A line that an invariant is false.
fn false_line(alloc: Global, token: usize, text: &[u8]) -> Result<Line, Memory>
    ensures { IfOk result (λ line. line ≡ at_item token Kind.Error text.now) }
{
    let text = Vec::from_slice(alloc, text)?;
    Ok(at_item(token, Kind::Error, text))
}

/// Why the invariant at this place is false in a store, behind the other lines.
fn push_why(
    alloc: Global,
    lines: &mut Vec<Line>,
    program: &Program,
    place: usize,
    store: &Store,
) -> Result<(), Memory>
    requires { length (spell_program program.now) < 2 ^ 64 }
    ensures { OnOk result (lines.new.items ≡ lines.old.items
        ++ parts_of program.now (Formula.Invariant place) (global_values program.now.globals store.now)) }
{
    let setting = at_start(program.globals.as_slice(), store);
    push_parts_of(alloc, lines, program, &Formula::Invariant(place), &setting)
}

/// What is wrong with the invariant at this place, and why it is false in a store, behind the other lines.
pub(crate) fn push_invariant(
    alloc: Global,
    lines: &mut Vec<Line>,
    program: &Program,
    place: usize,
    text: &[u8],
    store: &Store,
) -> Result<(), Memory>
    requires { length (spell_program program.now) < 2 ^ 64 }
    ensures { OnOk result (lines.new.items ≡ lines.old.items ++ invariant_story program.now place text.now store.now) }
{
    match invariant_start(program, place) {
        Some(token) => {
            lines.push(false_line(alloc, token, text)?)?;
            push_why(alloc, lines, program, place, store)
        }
        None => Ok(()),
    }
}

/// The story of K1, behind the other lines.
pub(crate) fn push_start(
    alloc: Global,
    lines: &mut Vec<Line>,
    program: &Program,
    condition: &Condition,
    store: &Store,
) -> Result<(), Memory>
    requires { length (spell_program program.now) < 2 ^ 64 }
    ensures { OnOk result (lines.new.items ≡ lines.old.items ++ start_story program.now condition.now store.now) }
{
    match condition {
        Condition::Start(step, number) => push_invariant(
            alloc,
            lines,
            program,
            invariant_place(program.invariants.as_slice(), *step, *number),
            b"is false in this initial store",
            store,
        ),
        Condition::Keep(_, _) => Ok(()),
        Condition::Pair(_, _, _, _) => Ok(()),
        Condition::Fire(_, _) => Ok(()),
        Condition::Path(_, _, _, _) => Ok(()),
        Condition::Block(_, _, _, _) => Ok(()),
        Condition::Act(_, _, _) => Ok(()),
    }
}
