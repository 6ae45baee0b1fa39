// Targets of K10 that are lost.
ghost use Rattle.std.specs.Prelude.{ℕ, List as ListOf, ◌≡◌, ◌++◌, ◌<◌, ◌^◌, [], Some, IfOk, OnOk};
ghost use Rattle.std.specs.Prelude.{drop, take, length, slice_get, slice_index_or};
ghost use Rattle.std.specs.Option.{option_map_or};
ghost use Rattle.civl_bits.specs.declared.value.Value.{Value as Given};
ghost use Rattle.civl_firing.specs.values.Operators.{nothing};
ghost use Rattle.civl_tree.specs.SpellingProgram.{spell_program};
ghost use Rattle.civl_layers.specs.Cuts.{proc_cuts};
ghost use Rattle.civl_conditions.specs.Steps.{of_cut};
ghost use Rattle.civl_conditions.specs.Targets.{frame_size, other_of};
ghost use Rattle.civl_path_stories.specs.Paths.{other_parts, place_among, target_parts, target_text};
ghost use Rattle.civl_path_stories.specs.inner.Others.{meant};

use crate::formulas::{push_formula, push_named_formula};
use civl_assumed::steady;
use civl_bits::Value;
use civl_conditions::Target;
use civl_firing::Store;
use civl_firing::setting::at_start;
use civl_firing::values::{is_true, nothing};
use civl_layers::{Cut, Layered, cuts, program};
use civl_lines::{Line, of_other};
use civl_meaning::slices::{behind, first};
use civl_places::{Formula, InStatement};
use civl_tree::{Invariant, Memory, Proc, Program};
use std::alloc::Global;

/// What is said of a target that is lost.
pub(crate) fn target_text(target: Target) -> &'static [u8]
    ensures { result.now ≡ target_text target }
{
    match target {
        Target::Invariant(_) => b"an invariant is lost here",
        Target::Yield(_, _) => b"what another thread's yield says is lost here",
    }
}

/// The place among these invariants of the one that has this place among those of the step.
#[tactic(auto, using(crate::proofs::Counting::counting))]
fn place_among(invariants: &[Invariant], step: u32, place: u32) -> usize
    ensures { result ≡ place_among step place invariants.now }
{
    let mut left = place;
    for (at, invariant) in invariants.iter().enumerate() {
        if invariant.step == step {
            if left == 0 {
                return at;
            }
            left -= 1;
        }
    }
    invariants.len()
}

/// Puts the false parts of an invariant of the step behind the others.
fn push_invariant(
    alloc: Global,
    lines: &mut Vec<Line>,
    program: &Program,
    step: u32,
    place: u32,
    values: &[Value],
    at: usize,
    store: &Store,
) -> Result<(), Memory>
    requires { length (spell_program program.now) < 2 ^ 64 }
    ensures { OnOk result (lines.new.items ≡ lines.old.items
        ++ target_parts program.now step (Target.Invariant place) values.now at store.now) }
{
    let number = place_among(program.invariants.as_slice(), step, place);
    let globals = at_start(program.globals.as_slice(), store);
    push_formula(alloc, lines, program, &globals, &Formula::Invariant(number))
}

/// The values of another thread's frame: those of its parameters, outputs and locals, and of `done`.
#[derive(Clone, Copy)]
struct Other<'a> {
    locals: &'a [Value],
    done: bool,
}

/// The values before these, which are the last ones.
fn before<'a>(values: &'a [Value], rest: &[Value]) -> &'a [Value]
    ensures { (count : ℕ) → rest.now ≡ drop count values.now → result.now ≡ take count values.now }
{
    first(values, values.len().saturating_sub(rest.len()))
}

/// The values behind a frame, which these begin with.
fn behind_frame<'a>(proc: &Proc, values: &'a [Value]) -> &'a [Value]
    ensures { result.now ≡ drop (frame_size proc.now) values.now }
{
    let outs = behind(values, proc.params.len());
    behind(behind(outs, proc.outs.len()), proc.locals.len())
}

/// The value at a place, or that where nothing is.
fn value_at(values: &[Value], at: usize) -> Value
    ensures { result ≡ slice_index_or values.now at nothing }
{
    if at < values.len() {
        values[at]
    } else {
        nothing()
    }
}

/// The frame with which these values begin.
fn other_of<'a>(proc: &Proc, values: &'a [Value]) -> Other<'a>
    ensures { (all : ListOf Given) (at : ℕ) → values.now ≡ drop at all → meant result ≡ other_of proc.now all at }
{
    let rest = behind_frame(proc, values);
    Other {
        locals: before(values, rest),
        done: is_true(value_at(rest, 0)),
    }
}

/// Puts the false parts of what a cut of another procedure says behind the others.
fn push_said(
    alloc: Global,
    lines: &mut Vec<Line>,
    program: &Program,
    number: u32,
    proc: &Proc,
    cut: Cut,
    values: &[Value],
    at: usize,
    store: &Store,
) -> Result<(), Memory>
    requires { length (spell_program program.now) < 2 ^ 64 }
    ensures { OnOk result (lines.new.items ≡ lines.old.items
        ++ other_parts program.now number values.now at store.now proc.now cut) }
{
    let other = other_of(proc, behind(values, at));
    let note = steady(
        program.globals.as_slice(),
        proc,
        store.values.as_slice(),
        other.locals,
        other.done,
    );
    let said = Formula::Statement(
        number as usize,
        cut.statement as usize,
        InStatement::Invariant,
    );
    let naming = of_other(program.globals.as_slice());
    push_named_formula(alloc, lines, program, &naming, &note, &said)
}

/// The cut of a procedure that has this number.
fn cut_at(
    alloc: Global,
    src: &Layered,
    number: u32,
    proc: &Proc,
    cut: u32,
) -> Result<Option<Cut>, Memory>
    requires { slice_get src.now.procs number ≡ Some proc.now }
    ensures { IfOk result (λ found. found ≡ slice_get (proc_cuts proc.now) cut) }
{
    let cuts = cuts(alloc, src, number)?;
    match cuts.as_slice().get(cut as usize) {
        Some(found) => Ok(Some(*found)),
        None => Ok(None),
    }
}

/// The same of the cut with this number.
fn push_said_in(
    alloc: Global,
    lines: &mut Vec<Line>,
    src: &Layered,
    number: u32,
    proc: &Proc,
    cut: u32,
    values: &[Value],
    at: usize,
    store: &Store,
) -> Result<(), Memory>
    requires tokens { length (spell_program src.now) < 2 ^ 64 }
    requires found { slice_get src.now.procs number ≡ Some proc.now }
    ensures { OnOk result (lines.new.items ≡ lines.old.items
        ++ option_map_or (other_parts src.now number values.now at store.now proc.now) (slice_get (proc_cuts proc.now) cut) []) }
{
    let found = cut_at(alloc, src, number, proc, cut)?;
    match found {
        Some(there) => {
            push_said(
                alloc,
                lines,
                program(src),
                number,
                proc,
                there,
                values,
                at,
                store,
            )
        }
        None => Ok(()),
    }
}

/// The same of the procedure with this number.
fn push_yield(
    alloc: Global,
    lines: &mut Vec<Line>,
    src: &Layered,
    number: u32,
    cut: u32,
    values: &[Value],
    at: usize,
    store: &Store,
) -> Result<(), Memory>
    requires { length (spell_program src.now) < 2 ^ 64 }
    ensures { OnOk result (lines.new.items ≡ lines.old.items
        ++ of_cut src.now number cut [] (other_parts src.now number values.now at store.now)) }
{
    match program(src).procs.as_slice().get(number as usize) {
        Some(proc) => push_said_in(alloc, lines, src, number, proc, cut, values, at, store),
        None => Ok(()),
    }
}

/// Puts the false parts of a target behind the others. The values of another thread's frame stand from a place on.
pub(crate) fn push_target(
    alloc: Global,
    lines: &mut Vec<Line>,
    src: &Layered,
    step: u32,
    target: Target,
    values: &[Value],
    at: usize,
    store: &Store,
) -> Result<(), Memory>
    requires { length (spell_program src.now) < 2 ^ 64 }
    ensures { OnOk result (lines.new.items ≡ lines.old.items ++ target_parts src.now step target values.now at store.now) }
{
    match target {
        Target::Invariant(place) => {
            push_invariant(alloc, lines, program(src), step, place, values, at, store)
        }
        Target::Yield(number, cut) => {
            push_yield(alloc, lines, src, number, cut, values, at, store)
        }
    }
}
