// The store and the moves of a script.
ghost use Rattle.std.specs.Prelude.{◌≡◌, ◌+◌, ◌<◌, None, IfSome, IfOk};
ghost use Rattle.civl_bits.specs.declared.value.Value.{Value as Of};
ghost use Rattle.civl_firing.specs.values.Values.{is_of};
ghost use Rattle.civl_script.specs.Schedules.{IsEntryOf, IsStoreFound, AreValuesFound, AreMovesFound, IsSchedule};

use crate::written::value_of;
use civl_bits::Value;
use civl_firing::values::is_of;
use civl_meaning::{Move, Store};
use civl_tree::{Entry, Global, List, Memory, Sort, Told};
use std::alloc::Global as Alloc;

/// What comes of a script for some globals: the store and the moves, or the number of what first doesn't fit.
#[derive(Drop)]
pub enum Schedule {
    Fits(Store, List<Move>),
    Wrong(usize),
}

/// What comes of a list: what it stands for, or the place of what first doesn't fit.
#[derive(Drop)]
pub(crate) enum Found<T> {
    All(List<T>),
    Wrong(usize),
}

fn is_sorted(value: &Value, sort: Sort) -> bool
    ensures { result ≡ is_of value.now sort }
{
    is_of(*value, sort)
}

/// The value that an entry writes for a global, if it is its entry.
fn entry_value(global: &Global, entry: &Entry) -> Option<Value>
    ensures some { IfSome result (λ value. IsEntryOf global.now entry.now value) }
    ensures none { result ≡ None → (value : Of) → IsEntryOf global.now entry.now value → ⊥ }
{
    if !entry.name.is_same(&global.name) {
        return None;
    }
    let value = value_of(entry)?;
    if is_sorted(&value, global.sort) {
        Some(value)
    } else {
        None
    }
}

/// The values that entries write for the globals.
fn store_values(alloc: Alloc, globals: &[Global], entries: &[Entry]) -> Result<Found<Value>, Memory>
    ensures { IfOk result (IsStoreFound globals.now entries.now) }
{
    let mut values = Vec::new(alloc);
    let common = globals.len().min(entries.len());
    for at in 0..common {
        match entry_value(&globals[at], &entries[at]) {
            Some(value) => values.push(value)?,
            None => return Ok(Found::Wrong(at)),
        }
    }
    if globals.len() == entries.len() {
        Ok(Found::All(List::from_vec(values)))
    } else {
        Ok(Found::Wrong(common))
    }
}

/// The values that choices write, if each writes one.
fn choice_values(alloc: Alloc, choices: &[Entry]) -> Result<Option<List<Value>>, Memory>
    ensures { IfOk result (AreValuesFound choices.now) }
{
    let mut values = Vec::new(alloc);
    for choice in choices {
        match value_of(choice) {
            Some(value) => values.push(value)?,
            None => return Ok(None),
        }
    }
    Ok(Some(List::from_vec(values)))
}

/// The moves that steps are.
fn moves(alloc: Alloc, steps: &[Told]) -> Result<Found<Move>, Memory>
    ensures { IfOk result (AreMovesFound steps.now) }
{
    let mut moves = Vec::new(alloc);
    for at in 0..steps.len() {
        let step = &steps[at];
        match choice_values(alloc, step.choices.as_slice())? {
            Some(choices) => moves.push(Move {
                thread: step.thread,
                choices,
            })?,
            None => return Ok(Found::Wrong(at)),
        }
    }
    Ok(Found::All(List::from_vec(moves)))
}

/// The store and the moves of a script, for the globals of its program. The entries have to name the globals in text order,
/// each once, with a value of its sort. `Wrong` has the number of the first entry that doesn't; where each does and some
/// are missing, the number of entries; and where none is missing, the number of globals and the number of the first
/// move one of whose choices is no value.
///
/// # Errors
///
/// For want of memory.
pub fn read_schedule(
    alloc: Alloc,
    globals: &List<Global>,
    store: &List<Entry>,
    steps: &List<Told>,
) -> Result<Schedule, Memory>
    ensures { IfOk result (IsSchedule globals.now store.now steps.now) }
{
    match store_values(alloc, globals.as_slice(), store.as_slice())? {
        Found::Wrong(number) => Ok(Schedule::Wrong(number)),
        Found::All(values) => match moves(alloc, steps.as_slice())? {
            Found::Wrong(at) => Ok(Schedule::Wrong(globals.len() + at)),
            Found::All(moves) => Ok(Schedule::Fits(Store { values }, moves)),
        },
    }
}
