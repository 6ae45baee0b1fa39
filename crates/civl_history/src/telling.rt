// What is told of a move, by what was kept before it and what is there behind it.
ghost use Rattle.std.specs.Prelude.{ℕ, ◌≡◌, ◌<◌, ◌≤◌, ◌+◌, ◌^◌, length, slice_get, IfOk, IfSome, Some, OnErr};
ghost use Rattle.civl_tree.specs.declared.stmt.Stmt.{out-Stmt};
ghost use Rattle.civl_meaning.specs.Table.{ArePlaces};
ghost use Rattle.civl_meaning.specs.Step.{step_of};
ghost use Rattle.civl_history.specs.History.{told};
ghost use Rattle.civl_history.specs.inner.Spots.{AreSpots};
ghost use Rattle.civl_history.specs.inner.Ahead.{said, call_kind, form_kind, first_kind, exit_kind, kind_seen};
ghost use Rattle.civl_history.specs.inner.Ahead.{top_locals, locals_seen, told_kept, answer_of, move_of};

use crate::ahead::{Ahead, stand_before};
use crate::changes::{Changed, changed_values};
use crate::kept::{Kept, keep};
use crate::moves::{MadeMove, StepKind};
use crate::spots::Spots;
use civl_bits::Value;
use civl_meaning::{Config, Move, Places, Plain, State, Stepped, step};
use civl_tree::{List, Memory, Stmt};
use std::alloc::Global;

/// What came of a move: it was made, and this is told of it, or it wasn't, with this answer.
#[derive(Drop)]
pub(crate) enum Outcome {
    Made(MadeMove),
    Refused(Stepped),
}

/// What kind of step a call was, with so many frames below the topmost one before it.
fn call_kind(below: usize, behind: &State) -> StepKind
    ensures { result ≡ call_kind below behind.now }
{
    match behind {
        State::Inside(frames, top) => {
            if below < frames.len() {
                StepKind::Enters(top.procedure)
            } else {
                StepKind::Acts
            }
        }
        State::Before | State::After => StepKind::Acts,
    }
}

/// What kind of step a statement was.
fn form_kind(threads: u32, below: usize, stmt: &Stmt, behind: &State) -> StepKind
    ensures { result ≡ form_kind threads below (out-Stmt stmt.now) behind.now }
{
    match stmt {
        Stmt::Call(_, _, _) => call_kind(below, behind),
        Stmt::Spawn(_, _) => StepKind::Spawns(threads),
        Stmt::Assign(_, _)
        | Stmt::Assert(_)
        | Stmt::If(_, _, _)
        | Stmt::While(_, _)
        | Stmt::YieldLoop(_, _, _)
        | Stmt::RankLoop(_, _, _, _)
        | Stmt::Yield(_)
        | Stmt::Commit
        | Stmt::Intro(_, _) => StepKind::Goes,
    }
}

/// What kind of step a thread's first call was.
fn first_kind(behind: &State) -> StepKind
    ensures { result ≡ first_kind behind.now }
{
    match behind {
        State::Inside(_, top) => StepKind::Enters(top.procedure),
        State::Before | State::After => StepKind::Acts,
    }
}

/// What kind of step it was at the end of a body.
fn exit_kind(behind: &State) -> StepKind
    ensures { result ≡ exit_kind behind.now }
{
    match behind {
        State::Inside(_, top) => StepKind::Returns(top.procedure),
        State::Before | State::After => StepKind::Ends,
    }
}

/// What kind of step it was.
fn step_kind(threads: u32, below: usize, ahead: Ahead<'_>, behind: &State) -> StepKind
    ensures { result ≡ kind_seen threads below (said ahead.entry) behind.now }
{
    match ahead {
        Ahead::Begins(_) => first_kind(behind),
        Ahead::Statement(_, numbered) => form_kind(threads, below, numbered.stmt, behind),
        Ahead::Exit(_) => exit_kind(behind),
        Ahead::Ended(_) => StepKind::Ends,
    }
}

/// The locals of the topmost frame.
fn top_locals(state: &State) -> &[Value]
    ensures { result.now ≡ top_locals state.now }
{
    match state {
        State::Inside(_, top) => top.locals.as_slice(),
        State::Before | State::After => &[],
    }
}

/// What changed of the locals in such a step.
fn local_changes(
    alloc: Global,
    kind: StepKind,
    kept: &[Value],
    behind: &State,
) -> Result<List<Changed>, Memory>
    ensures { IfOk result (λ changed. changed ≡ locals_seen kind kept.now behind.now) }
{
    match kind {
        StepKind::Goes | StepKind::Acts | StepKind::Returns(_) => {
            changed_values(alloc, kept, top_locals(behind))
        }
        StepKind::Enters(_) | StepKind::Ends | StepKind::Spawns(_) => Ok(List::new(alloc)),
    }
}

/// What is told of a move of this thread that was made.
fn tell(alloc: Global, config: &Config, thread: u32, kept: &Kept<'_>) -> Result<MadeMove, Memory>
    requires few { kept.now.threads < 2 ^ 32 }
    requires there { thread < length config.now.threads }
    ensures { IfOk result (λ made. IfSome (slice_get config.now.threads thread) (λ behind. made
        ≡ told_kept thread kept.now config.now behind.state)) }
{
    let behind = &config.threads.get(thread as usize).state;
    let kind = step_kind(kept.threads as u32, kept.below, kept.ahead, behind);
    let globals = changed_values(alloc, kept.store.as_slice(), config.store.values.as_slice())?;
    let locals = local_changes(alloc, kind, kept.locals.as_slice(), behind)?;
    Ok(MadeMove {
        thread,
        stood: stand_before(kept.ahead),
        kind,
        globals,
        locals,
    })
}

/// Makes a move, and tells of it.
pub(crate) fn make_move(
    alloc: Global,
    config: &mut Config,
    plain: &Plain,
    places: &Places<'_>,
    spots: &Spots<'_>,
    chosen: &Move,
) -> Result<Outcome, Memory>
    requires places { ArePlaces plain.now places.now }
    requires spots { AreSpots plain.now spots.now }
    requires few { length config.old.threads < 2 ^ 32 }
    ensures step { IfOk result (λ outcome. (answer_of outcome, config.new) ≡ step_of plain.now config.old chosen.now) }
    ensures told { IfOk result (λ outcome. move_of outcome ≡ told plain.now config.old chosen.now) }
    ensures more { length config.new.threads ≤ length config.old.threads + 1 }
{
    let at = chosen.thread as usize;
    if at >= config.threads.len() {
        return Ok(Outcome::Refused(Stepped::NoThread));
    }
    let kept = keep(alloc, plain, spots, config, at)?;
    let answer = step(alloc, config, plain, places, chosen)?;
    if answer != Stepped::Moved {
        return Ok(Outcome::Refused(answer));
    }
    let made = tell(alloc, config, chosen.thread, &kept)?;
    Ok(Outcome::Made(made))
}
