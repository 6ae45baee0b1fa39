// What differs between two lists of values.
ghost use Rattle.std.specs.Prelude.{◌≡◌, ◌++◌, OnOk, IfOk};
ghost use Rattle.civl_history.specs.History.{change_at, changes};

use civl_bits::Value;
use civl_tree::{List, Memory};
use std::alloc::Global;

/// A value that was changed: its place in its list, from 0, what it was, and what it came to.
#[derive(Clone, Copy, Debug, PartialEq, Eq)]
pub struct Changed {
    pub place: usize,
    pub before: Value,
    pub after: Value,
}

/// Puts a value behind others that were changed, if it was.
fn push_change(
    changed: &mut Vec<Changed>,
    place: usize,
    before: &Value,
    after: &Value,
) -> Result<(), Memory>
    ensures { OnOk result (changed.new.items ≡ changed.old.items ++ change_at place before.now after.now) }
{
    if before.same(after) {
        return Ok(());
    }
    changed.push(Changed {
        place,
        before: *before,
        after: *after,
    })?;
    Ok(())
}

/// The values that differ, in the order of their places. Behind the end of the shorter list nothing is told.
pub(crate) fn changed_values(
    alloc: Global,
    before: &[Value],
    after: &[Value],
) -> Result<List<Changed>, Memory>
    ensures { IfOk result (λ changed. changed ≡ changes before.now after.now) }
{
    let mut changed = Vec::new(alloc);
    let mut place = 0;
    while place < before.len() && place < after.len() {
        push_change(&mut changed, place, &before[place], &after[place])?;
        place += 1;
    }
    changed.shrink_to_fit();
    Ok(List::from_vec(changed))
}
