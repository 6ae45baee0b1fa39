// The items of a program by their numbers.
ghost use Rattle.std.specs.Prelude.{◌≡◌};
ghost use Rattle.std.specs.Option.{option_map};
ghost use Rattle.civl_subjects.specs.Parts.{from_actions, from_init, from_invariants, from_procs, from_threads, part_at};
ghost use Rattle.civl_subjects.specs.inner.Meant.{part_meant};

use civl_tree::{Action, Global, Invariant, Proc, Program, Thread};

/// An item, with its place among those of its kind.
#[derive(Clone, Copy)]
pub(crate) enum Part<'a> {
    Global(usize, &'a Global),
    Init,
    Invariant(usize, &'a Invariant),
    Action(usize, &'a Action),
    Proc(usize, &'a Proc),
    Thread(usize, &'a Thread),
}

/// The part with this number, counted from the threads on.
fn from_threads(program: &Program, number: usize) -> Option<Part<'_>>
    ensures { option_map part_meant result ≡ from_threads program.now number }
{
    match program.threads.as_slice().get(number) {
        Some(thread) => Some(Part::Thread(number, thread)),
        None => None,
    }
}

/// The same from the procedures on.
fn from_procs(program: &Program, number: usize) -> Option<Part<'_>>
    ensures { option_map part_meant result ≡ from_procs program.now number }
{
    match program.procs.as_slice().get(number) {
        Some(proc) => Some(Part::Proc(number, proc)),
        None => from_threads(program, number.saturating_sub(program.procs.len())),
    }
}

/// The same from the actions on.
fn from_actions(program: &Program, number: usize) -> Option<Part<'_>>
    ensures { option_map part_meant result ≡ from_actions program.now number }
{
    match program.actions.as_slice().get(number) {
        Some(action) => Some(Part::Action(number, action)),
        None => from_procs(program, number.saturating_sub(program.actions.len())),
    }
}

/// The same from the invariants on.
fn from_invariants(program: &Program, number: usize) -> Option<Part<'_>>
    ensures { option_map part_meant result ≡ from_invariants program.now number }
{
    match program.invariants.as_slice().get(number) {
        Some(invariant) => Some(Part::Invariant(number, invariant)),
        None => from_actions(program, number.saturating_sub(program.invariants.len())),
    }
}

/// The same from `init` on.
fn from_init(program: &Program, number: usize) -> Option<Part<'_>>
    ensures { option_map part_meant result ≡ from_init program.now number }
{
    if number == 0 {
        Some(Part::Init)
    } else {
        from_invariants(program, number - 1)
    }
}

/// The item with this number.
pub(crate) fn part_at(program: &Program, item: usize) -> Option<Part<'_>>
    ensures { option_map part_meant result ≡ part_at program.now item }
{
    match program.globals.as_slice().get(item) {
        Some(global) => Some(Part::Global(item, global)),
        None => from_init(program, item.saturating_sub(program.globals.len())),
    }
}
