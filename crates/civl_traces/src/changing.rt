// What changes from one state to another.
ghost use Rattle.std.specs.Prelude.{◌≡◌, ◌+◌, ◌++◌, ◌∷◌, [], ◌<◌, ◌^◌, length, if◌then◌else◌, OnOk, IfOk};
ghost use Rattle.civl_bits.specs.Value.{same_value};
ghost use Rattle.civl_traces.specs.Told.{changes, changed, progress};

use crate::walked::{Changed, Moment};
use civl_bits::Value;
use civl_firing::Store;
use civl_tree::{List, Memory};
use std::alloc::Global;

/// Puts a change behind others, where these values differ.
fn push_change(
    list: &mut List<Changed>,
    place: usize,
    before: &Value,
    after: &Value,
) -> Result<(), Memory>
    ensures { OnOk result (list.new ≡ list.old ++ (if same_value before.now after.now then [] else record { place = place; before = before.now; after = after.now } ∷ [])) }
{
    if before.same(after) {
        return Ok(());
    }
    list.push(Changed {
        place,
        before: *before,
        after: *after,
    })
}

/// Puts what differs in two lists of values behind others, where the first place has this number.
fn push_changes(
    list: &mut List<Changed>,
    first: usize,
    before: &[Value],
    after: &[Value],
) -> Result<(), Memory>
    requires { first + length before.now < 2 ^ 64 }
    ensures { OnOk result (list.new ≡ list.old ++ changes first before.now after.now) }
{
    let mut at = 0;
    for value in before {
        if at == after.len() {
            return Ok(());
        }
        push_change(list, first + at, value, &after[at])?;
        at += 1;
    }
    Ok(())
}

/// What changes from one state to another.
pub fn changed(alloc: Global, before: &Moment, after: &Moment) -> Result<List<Changed>, Memory>
    ensures { IfOk result (λ list. list ≡ changed (progress before.now) (progress after.now)) }
{
    let mut list = List::new(alloc);
    let globals = before.store.values.as_slice();
    push_changes(&mut list, 0, globals, after.store.values.as_slice())?;
    push_changes(
        &mut list,
        globals.len(),
        before.locals.as_slice(),
        after.locals.as_slice(),
    )?;
    Ok(list)
}

/// An equal state.
pub fn copied(alloc: Global, moment: &Moment) -> Result<Moment, Memory>
    ensures { IfOk result (λ m. m ≡ moment.now) }
{
    let values = Vec::from_slice(alloc, moment.store.values.as_slice())?;
    let locals = Vec::from_slice(alloc, moment.locals.as_slice())?;
    Ok(Moment {
        store: Store {
            values: List::from_vec(values),
        },
        locals: List::from_vec(locals),
        done: moment.done,
        again: moment.again,
    })
}
