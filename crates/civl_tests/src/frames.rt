// A program that is accepted though its lowest program may fail: its topmost one may too. Both schedules are replayed by
// steps, and a thread's frames are looked at before and inside a call.

use crate::runs::{begun, plain};
use civl_bits::Value;
use civl_meaning::{
    Config, Move, Plain, Stepped, copy_config, depth, failing, frame, places_of, same, step,
};
use civl_tree::List;
use std::alloc::Global;

/// Whether the thread moves.
fn moves(alloc: Global, config: &mut Config, plain: &Plain, thread: u32) -> Option<bool> {
    let places = places_of(alloc, plain).ok()?;
    let chosen = Move {
        thread,
        choices: List::new(alloc),
    };
    let stepped = step(alloc, config, plain, &places, &chosen).ok()?;
    Some(stepped == Stepped::Moved)
}

/// Whether the threads move in this order, and none fails before.
fn all_move(alloc: Global, config: &mut Config, plain: &Plain, threads: &[u32]) -> Option<bool> {
    for thread in threads {
        if config.threads.len() != 2 || failing(config, plain).is_some() {
            return Some(false);
        }
        if !moves(alloc, config, plain, *thread)? {
            return Some(false);
        }
    }
    Some(true)
}

/// Whether the first thread is the first that fails, in a copy of the configuration too.
fn first_fails(alloc: Global, config: &Config, plain: &Plain) -> Option<bool> {
    let copy = copy_config(alloc, config).ok()?;
    Some(
        config.threads.len() == 2
            && failing(config, plain) == Some(0)
            && same(&copy, config)
            && failing(&copy, plain) == Some(0),
    )
}

/// Whether the moves of these threads lead to a configuration in which the first thread is the first that fails.
fn fails_then(alloc: Global, config: &mut Config, plain: &Plain, threads: &[u32]) -> Option<bool> {
    let have_moved = all_move(alloc, config, plain, threads)?;
    let fails = first_fails(alloc, config, plain)?;
    Some(have_moved && fails)
}

/// The same from the store in which the flag is set.
fn fails_from_start(alloc: Global, plain: &Plain, threads: &[u32]) -> Option<bool> {
    let mut config = begun(alloc, plain, Value::Bool(true))?;
    fails_then(alloc, &mut config, plain, threads)
}

/// The same where procedures mean their bodies, or the actions that they refine.
fn fails_with(alloc: Global, text: &str, is_body: bool, threads: &[u32]) -> Option<bool> {
    let plain = plain(alloc, text, is_body, 2)?;
    fails_from_start(alloc, &plain, threads)
}

/// Below, DoSet begins; DoClear begins and clears the flag: DoSet stands before Set, whose gate is false. Above, AtomClear clears the
/// flag: the other thread stands before AtomSet, whose gate is false.
pub(crate) fn both_programs_fail(alloc: Global, text: &str) -> Option<bool> {
    let lowest_fails = fails_with(alloc, text, true, &[0, 1, 1])?;
    let topmost_fails = fails_with(alloc, text, false, &[1])?;
    Some(lowest_fails && topmost_fails)
}

/// Whether the first thread's frames, from the first to the last, have so many statements left.
fn has_left(alloc: Global, config: &Config, plain: &Plain, wanted: &[usize]) -> Option<bool> {
    if config.threads.is_empty() || depth(config, 0) != wanted.len() {
        return Some(false);
    }
    for at in 0..wanted.len() {
        let frame = frame(alloc, config, plain, 0, at).ok()?;
        if frame.rest.len() != wanted[at] {
            return Some(false);
        }
    }
    Some(true)
}

/// Whether the first thread moves and then has so many statements left in its frames.
fn moves_and_has_left(
    alloc: Global,
    config: &mut Config,
    plain: &Plain,
    wanted: &[usize],
) -> Option<bool> {
    let has_moved = moves(alloc, config, plain, 0)?;
    let has_left = has_left(alloc, config, plain, wanted)?;
    Some(has_moved && has_left)
}

/// The thread has yet to call DoSet. Then it waits in this call, and DoSet has the call of Set and a commit left; then the
/// commit alone.
fn has_frames(alloc: Global, config: &mut Config, plain: &Plain) -> Option<bool> {
    let before = has_left(alloc, config, plain, &[1])?;
    let inside = moves_and_has_left(alloc, config, plain, &[1, 2])?;
    let after = moves_and_has_left(alloc, config, plain, &[1, 1])?;
    Some(before && inside && after)
}

/// A run from the store in which the flag is set has these frames.
fn has_frames_from_start(alloc: Global, plain: &Plain) -> Option<bool> {
    let mut config = begun(alloc, plain, Value::Bool(true))?;
    has_frames(alloc, &mut config, plain)
}

/// The frames of the program whose procedures mean their bodies.
pub(crate) fn frames_before_and_inside_a_call(alloc: Global, text: &str) -> Option<bool> {
    let plain = plain(alloc, text, true, 2)?;
    has_frames_from_start(alloc, &plain)
}
