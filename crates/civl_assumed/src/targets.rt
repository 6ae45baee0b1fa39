// The targets of K10 and K11: what has to stay true under other threads' blocks and actions.
ghost use Rattle.std.specs.Prelude.{ℕ, List as ListOf, ◌≡◌, ◌++◌, [], Some, drop, false, get_or, option_copied, slice_get, OnOk, IfOk};
ghost use Rattle.std.specs.Option.{option_map_or};
ghost use Rattle.civl_bits.specs.declared.value.Value.{Value as Given};
ghost use Rattle.civl_layers.specs.Cuts.{proc_cuts};
ghost use Rattle.civl_linear.specs.Cuts.{all_held};
ghost use Rattle.civl_conditions.specs.Assumed.{note_holds};
ghost use Rattle.civl_conditions.specs.Targets.{other_of, target_lost, target_owned};
ghost use Rattle.civl_conditions.specs.paths.NoteValues.{steady_note_values};
ghost use Rattle.civl_assumed.specs.inner.Others.{meant, yield_lost, yield_lost_at};

use crate::begun::{note_holds, push_held};
use crate::frames::{behind_frame, frame_values};
use crate::invariants::{invariant_lost, invariant_of};
use crate::noted::{steady, value_at};
use civl_bits::Value;
use civl_conditions::Target;
use civl_firing::Store;
use civl_firing::values::is_true;
use civl_layers::{Cut, Held, Layered, cuts, program};
use civl_meaning::slices::behind;
use civl_names::walks::statements;
use civl_tree::{Expr, List, Memory, Proc, Program};
use std::alloc::Global;

/// The values of another thread's frame: those of its parameters, outputs and locals, and of `done`.
#[derive(Clone, Copy)]
struct Other<'a> {
    locals: &'a [Value],
    done: bool,
}

/// The frame with which these values begin.
fn other_of<'a>(proc: &Proc, values: &'a [Value]) -> Other<'a>
    ensures { (all : ListOf Given) (at : ℕ) → values.now ≡ drop at all → meant result ≡ other_of proc.now all at }
{
    Other {
        locals: frame_values(proc, values),
        done: is_true(value_at(behind_frame(proc, values), 0)),
    }
}

/// Whether the invariant of a yield holds of another thread's frame in a store.
fn yield_holds(
    program: &Program,
    proc: &Proc,
    note: Option<&Expr>,
    other: &Other<'_>,
    store: &Store,
) -> bool
    ensures { result ≡ note_holds (steady_note_values program.now.globals proc.now store.now other.now.locals.now other.now.done)
        (option_copied note.entry) }
{
    let noted = steady(
        program.globals.as_slice(),
        proc,
        store.values.as_slice(),
        other.locals,
        other.done,
    );
    note_holds(&noted, note)
}

/// Whether the invariant of a cut held before, of another thread's frame, and doesn't after.
fn yield_lost_at(
    alloc: Global,
    program: &Program,
    proc: &Proc,
    cut: Cut,
    values: &[Value],
    at: usize,
    before: &Store,
    after: &Store,
) -> Result<bool, Memory>
    ensures { IfOk result (λ lost. lost ≡ yield_lost_at program.now values.now at before.now after.now proc.now cut) }
{
    let flat = statements(alloc, &proc.body)?;
    let note = invariant_of(proc, flat.as_slice(), cut);
    let other = other_of(proc, behind(values, at));
    if !yield_holds(program, proc, note, &other, before) {
        return Ok(false);
    }
    Ok(!yield_holds(program, proc, note, &other, after))
}

/// The same, of the cut of a procedure that has this number.
fn yield_lost_in(
    alloc: Global,
    src: &Layered,
    number: u32,
    proc: &Proc,
    cut: u32,
    values: &[Value],
    at: usize,
    before: &Store,
    after: &Store,
) -> Result<bool, Memory>
    requires found { slice_get src.now.procs number ≡ Some proc.now }
    ensures { IfOk result (λ lost. lost ≡ option_map_or (yield_lost_at src.now values.now at before.now after.now proc.now)
        (slice_get (proc_cuts proc.now) cut) false) }
{
    let cuts = cuts(alloc, src, number)?;
    match cuts.as_slice().get(cut as usize) {
        Some(found) => {
            yield_lost_at(alloc, program(src), proc, *found, values, at, before, after)
        }
        None => Ok(false),
    }
}

/// The same, of the procedure and its cut that have these numbers.
fn yield_lost(
    alloc: Global,
    src: &Layered,
    number: u32,
    cut: u32,
    values: &[Value],
    at: usize,
    before: &Store,
    after: &Store,
) -> Result<bool, Memory>
    ensures { IfOk result (λ lost. lost ≡ yield_lost src.now number cut values.now at before.now after.now) }
{
    match program(src).procs.as_slice().get(number as usize) {
        Some(proc) => { yield_lost_in(alloc, src, number, proc, cut, values, at, before, after) }
        None => Ok(false),
    }
}

/// Whether a target is lost: the invariant of the step is false after; or the invariant of the yield, which held before of the other
/// thread's frame, is false after. The values of that frame stand from a place on: its parameters, outputs and locals, and `done`.
///
/// # Errors
///
/// For want of memory.
pub fn target_lost(
    alloc: Global,
    src: &Layered,
    step: u32,
    target: Target,
    values: &[Value],
    at: usize,
    before: &Store,
    after: &Store,
) -> Result<bool, Memory>
    ensures { IfOk result (λ lost. lost ≡ target_lost src.now step target values.now at before.now after.now) }
{
    match target {
        Target::Invariant(place) => Ok(invariant_lost(program(src), step, place, after)),
        Target::Yield(number, cut) => {
            yield_lost(alloc, src, number, cut, values, at, before, after)
        }
    }
}

/// The numbers of the locals that are held at a cut.
fn held_at(held: &Held, number: u32, cut: u32) -> &[u32]
    ensures { result.now ≡ get_or (get_or held.now.cuts number []) cut [] }
{
    match held.cuts.as_slice().get(number as usize) {
        Some(cuts) => match cuts.as_slice().get(cut as usize) {
            Some(numbers) => numbers.as_slice(),
            None => &[],
        },
        None => &[],
    }
}

/// Adds the permissions of the held locals of the frame at a target. A yield's frame has its values from a place on, as in
/// [`target_lost`]; an invariant has no frame.
///
/// # Errors
///
/// For want of memory.
pub fn push_target_owned(
    alloc: Global,
    lists: &mut Vec<List<u32>>,
    src: &Layered,
    held: &Held,
    target: Target,
    values: &[Value],
    at: usize,
) -> Result<(), Memory>
    requires held { held.now.cuts ≡ all_held src.now }
    ensures { OnOk result (lists.new.items ≡ lists.old.items ++ target_owned src.now target values.now at) }
{
    match target {
        Target::Invariant(_) => Ok(()),
        Target::Yield(number, cut) => match program(src).procs.as_slice().get(number as usize) {
            Some(proc) => {
                let other = other_of(proc, behind(values, at));
                push_held(alloc, lists, held_at(held, number, cut), other.locals)
            }
            None => Ok(()),
        },
    }
}
