// What a goal assumes of the frame of a root, and of another thread's frame.
ghost use Rattle.std.specs.Prelude.{◌≡◌, ◌++◌, OnOk, IfOk};
ghost use Rattle.civl_meaning.specs.Permissions.{pairwise_disjoint};
ghost use Rattle.civl_conditions.specs.Permissions.{in_store};
ghost use Rattle.civl_goals.specs.Failed.{assumed, beside, owned_in};
ghost use Rattle.civl_goals.specs.Outlines.{note_holds};
ghost use Rattle.civl_goal_losses.specs.inner.Frames.{stood};

use crate::saying::{Frame, invariant_holds, note_holds};
use crate::stepping::copied;
use civl_assumed::permissions::{are_apart, push_globals};
use civl_assumed::push_held;
use civl_bits::Value;
use civl_firing::Store;
use civl_goals::held_before;
use civl_layers::{Layered, program};
use civl_meaning::Activation;
use civl_outlines::Outline;
use civl_tree::{List, Memory};
use std::alloc::Global;

/// A frame of a root before a statement: the numbers of both, and the values of the root's parameters, outputs and locals.
#[derive(Clone, Copy)]
pub(crate) struct Stand<'a> {
    pub root: u32,
    pub statement: u32,
    pub locals: &'a [Value],
}

/// A frame of its own.
pub(crate) fn activation(alloc: Global, stand: &Stand<'_>) -> Result<Activation, Memory>
    ensures { IfOk result (λ frame. frame ≡ stood stand.now) }
{
    let locals = copied(alloc, stand.locals)?;
    Ok(Activation {
        procedure: stand.root as usize,
        place: stand.statement as usize,
        locals,
    })
}

/// Whether the note holds before which a frame stands, where one is written.
pub(crate) fn note_holds_at(
    src: &Layered,
    outline: &Outline,
    store: &Store,
    stand: &Stand<'_>,
) -> bool
    ensures { result ≡ note_holds src.now outline.now store.now (stood stand.now) }
{
    let frame = Frame {
        procedure: stand.root as usize,
        place: stand.statement as usize,
        locals: stand.locals,
    };
    note_holds(program(src), outline, store, &frame)
}

/// Adds the permissions of the locals that a frame holds.
fn push_owned(
    alloc: Global,
    lists: &mut Vec<List<u32>>,
    src: &Layered,
    stand: &Stand<'_>,
) -> Result<(), Memory>
    ensures { OnOk result (lists.new.items ≡ lists.old.items ++ owned_in src.now (stood stand.now)) }
{
    let numbers = held_before(alloc, src, stand.root, stand.statement)?;
    push_held(alloc, lists, numbers.as_slice(), stand.locals)
}

/// Whether no permission is in two of the linear globals and of the locals that the frame holds.
fn is_apart(alloc: Global, src: &Layered, store: &Store, stand: &Stand<'_>) -> Result<bool, Memory>
    ensures { IfOk result (λ is. is ≡ pairwise_disjoint (in_store src.now store.now ++ owned_in src.now (stood stand.now))) }
{
    let globals = program(src).globals.as_slice();
    let mut lists = Vec::new(alloc);
    push_globals(alloc, &mut lists, globals, store.values.as_slice())?;
    push_owned(alloc, &mut lists, src, stand)?;
    Ok(are_apart(lists.as_slice()))
}

/// Whether what is assumed of a frame holds: the invariant, its note, and that what is owned is apart.
pub(crate) fn assumed(
    alloc: Global,
    src: &Layered,
    outline: &Outline,
    store: &Store,
    stand: &Stand<'_>,
) -> Result<bool, Memory>
    ensures { IfOk result (λ is. is ≡ assumed src.now outline.now store.now (stood stand.now)) }
{
    if !invariant_holds(program(src), outline, store) {
        return Ok(false);
    }
    if !note_holds_at(src, outline, store, stand) {
        return Ok(false);
    }
    is_apart(alloc, src, store, stand)
}

/// Whether no permission is in two of the linear globals and of the locals that both frames hold.
fn are_apart_beside(
    alloc: Global,
    src: &Layered,
    store: &Store,
    stand: &Stand<'_>,
    other: &Stand<'_>,
) -> Result<bool, Memory>
    ensures { IfOk result (λ is. is ≡ pairwise_disjoint
        (in_store src.now store.now ++ (owned_in src.now (stood stand.now) ++ owned_in src.now (stood other.now)))) }
{
    let globals = program(src).globals.as_slice();
    let mut lists = Vec::new(alloc);
    push_globals(alloc, &mut lists, globals, store.values.as_slice())?;
    push_owned(alloc, &mut lists, src, stand)?;
    push_owned(alloc, &mut lists, src, other)?;
    Ok(are_apart(lists.as_slice()))
}

/// Whether what is assumed of another thread's frame holds: its note, and that what both own is apart.
pub(crate) fn beside(
    alloc: Global,
    src: &Layered,
    outline: &Outline,
    store: &Store,
    stand: &Stand<'_>,
    other: &Stand<'_>,
) -> Result<bool, Memory>
    ensures { IfOk result (λ is. is ≡ beside src.now outline.now store.now (stood stand.now) (stood other.now)) }
{
    if !note_holds_at(src, outline, store, other) {
        return Ok(false);
    }
    are_apart_beside(alloc, src, store, stand, other)
}
