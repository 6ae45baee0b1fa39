// What is assumed at a cut of a procedure, where its paths begin.
ghost use Rattle.std.specs.Prelude.{ℕ, List as ListOf, ◌≡◌, ◌++◌, Bool, option_copied, OnOk, IfOk};
ghost use Rattle.civl_bits.specs.declared.value.Value.{Value as Given};
ghost use Rattle.civl_conditions.specs.Assumed.{assumed, cut_invariant, inputs_of, note_holds, owned, refined_action, refined_gate};
ghost use Rattle.civl_conditions.specs.Permissions.{held_at, of_held};
ghost use Rattle.civl_assumed.specs.Beginnings.{begun_of};
ghost use Rattle.civl_assumed.specs.Noted.{scope_noted};
ghost use Rattle.civl_assumed.specs.inner.Met.{scope_begun, may_begin, values_meet};

use crate::invariants::invariants_hold;
use crate::noted::{Noted, value_at};
use crate::permissions::{are_apart, push_globals, push_word};
use civl_bits::Value;
use civl_firing::Store;
use civl_firing::expressions::holds;
use civl_firing::firing::gate;
use civl_firing::setting::Bindings;
use civl_layers::Cut;
use civl_meaning::slices::first;
use civl_tree::{Action, Expr, List, Memory, Proc, Program};
use civl_types::names::action_named;
use std::alloc::Global;

/// A cut of a procedure of a step's layer: its number, what it says, and the numbers of the locals that are held there.
#[derive(Clone, Copy)]
pub struct Place<'a> {
    pub program: &'a Program,
    pub step: u32,
    pub proc: &'a Proc,
    pub number: u32,
    pub cut: Cut,
    pub note: Option<&'a Expr>,
    pub held: &'a [u32],
}

/// The values at a path's beginning: the present, and those at the block's beginning, which are called old.
#[derive(Clone, Copy)]
pub struct Begun<'a> {
    pub store: &'a Store,
    pub locals: &'a [Value],
    pub done: bool,
    pub old: &'a Store,
    pub old_outs: &'a [Value],
    pub old_done: bool,
}

/// Whether a note holds, where there is one.
pub fn note_holds<B: Bindings>(bindings: &B, note: Option<&Expr>) -> bool
    ensures { result ≡ note_holds (B.scope bindings.now) (option_copied note.entry) }
{
    match note {
        Some(expr) => holds(bindings, expr),
        None => true,
    }
}

/// The action that a procedure refines.
pub fn refined_action<'a>(program: &'a Program, proc: &Proc) -> Option<&'a Action>
    ensures { option_copied result ≡ refined_action program.now proc.now }
{
    match &proc.refines {
        None => None,
        Some(refines) => action_named(program, &refines.action),
    }
}

/// Whether the gate of the refined action holds of the old globals.
fn refined_gate(place: &Place<'_>, begun: &Begun<'_>) -> bool
    ensures { (chosen : ℕ → ListOf Given) → result ≡ refined_gate place.now.program.now place.now.proc.now (begun_of begun.now chosen) }
{
    match refined_action(place.program, place.proc) {
        Some(action) => {
            let inputs = first(begun.locals, place.proc.params.len());
            gate(place.program.globals.as_slice(), begun.old, action, inputs)
        }
        None => false,
    }
}

/// The note of the cut at the path's beginning.
fn noted<'a>(place: &Place<'a>, begun: &Begun<'a>) -> Noted<'a>
    ensures { (chosen : ℕ → ListOf Given) → scope_noted result ≡ scope_begun place.now.program.now place.now.proc.now (begun_of begun.now chosen) }
{
    Noted {
        globals: place.program.globals.as_slice(),
        proc: place.proc,
        store: begun.store.values.as_slice(),
        locals: begun.locals,
        done: begun.done,
        old: begun.old.values.as_slice(),
        old_outs: begun.old_outs,
        old_done: begun.old_done,
    }
}

/// Whether `done` and the gate of the refined action are as they may be at a path's beginning.
fn may_begin(place: &Place<'_>, begun: &Begun<'_>) -> bool
    ensures { (chosen : ℕ → ListOf Given) → result ≡ may_begin place.now.program.now place.now.proc.now (begun_of begun.now chosen) }
{
    if begun.old_done {
        begun.done
    } else {
        refined_gate(place, begun)
    }
}

/// Whether the values at a path's beginning meet what is assumed of them, but for permissions.
fn values_meet<'a>(place: &Place<'a>, begun: &Begun<'a>) -> bool
    requires note { option_copied place.now.note ≡ cut_invariant place.now.proc.now place.now.cut }
    ensures { (chosen : ℕ → ListOf Given) → result ≡ values_meet place.now.program.now place.now.step place.now.proc.now place.now.cut (begun_of begun.now chosen) }
{
    if !invariants_hold(place.program, place.step, begun.old) {
        return false;
    }
    if !note_holds(&noted(place, begun), place.note) {
        return false;
    }
    may_begin(place, begun)
}

/// The permissions of the locals with these numbers.
///
/// # Errors
///
/// For want of memory.
pub fn push_held(
    alloc: Global,
    lists: &mut Vec<List<u32>>,
    numbers: &[u32],
    locals: &[Value],
) -> Result<(), Memory>
    ensures { OnOk result (lists.new.items ≡ lists.old.items ++ of_held numbers.now locals.now) }
{
    for number in numbers {
        push_word(alloc, lists, &value_at(locals, *number as usize))?;
    }
    Ok(())
}

/// The permissions that are owned at a path's beginning.
///
/// # Errors
///
/// For want of memory.
pub fn owned(alloc: Global, place: &Place<'_>, begun: &Begun<'_>) -> Result<Vec<List<u32>>, Memory>
    requires held { place.now.held.now ≡ held_at place.now.program.now place.now.proc.now place.now.number }
    ensures { IfOk result (λ lists. (chosen : ℕ → ListOf Given) → lists.items ≡ owned place.now.program.now place.now.proc.now place.now.number (begun_of begun.now chosen)) }
{
    let mut lists = Vec::new(alloc);
    push_globals(
        alloc,
        &mut lists,
        place.program.globals.as_slice(),
        begun.store.values.as_slice(),
    )?;
    push_held(alloc, &mut lists, place.held, begun.locals)?;
    Ok(lists)
}

/// Whether the values at a path's beginning meet what is assumed there: the invariants of the step hold of the old globals, and what
/// the cut says; the refined action's gate holds of the old globals, where old `done` is false; where it is true, so is `done`; and
/// what is owned is pairwise disjoint.
///
/// # Errors
///
/// For want of memory.
pub fn is_assumed<'a>(alloc: Global, place: &Place<'a>, begun: &Begun<'a>) -> Result<bool, Memory>
    requires note { option_copied place.now.note ≡ cut_invariant place.now.proc.now place.now.cut }
    requires held { place.now.held.now ≡ held_at place.now.program.now place.now.proc.now place.now.number }
    ensures { IfOk result (λ is. (chosen : ℕ → ListOf Given) → is ≡ assumed place.now.program.now place.now.step place.now.proc.now place.now.number place.now.cut (begun_of begun.now chosen)) }
{
    if !values_meet(place, begun) {
        return Ok(false);
    }
    let lists = owned(alloc, place, begun)?;
    Ok(are_apart(lists.as_slice()))
}
