// The globals and the outputs in which two orders differ.
ghost use Rattle.std.specs.Prelude.{◌≡◌, ◌++◌, OnOk, IfOk, if◌then◌else◌, []};
ghost use Rattle.civl_conditions.specs.footprints.Agreement.{exists_at};
ghost use Rattle.civl_clashes.specs.Differences.{difference, globals_differ, outs_differ, differences};

use crate::violations::{Difference, Order, Place, Which};
use civl_bits::Value;
use civl_conditions::exists_at;
use civl_tree::{Global, List, Memory, Program};
use std::alloc::Global as Alloc;

/// Puts a place behind the others, if its two values differ.
fn push_difference(
    list: &mut List<Difference>,
    place: Place,
    kept: &Value,
    exchanged: &Value,
) -> Result<(), Memory>
    ensures { OnOk result (list.new ≡ list.old ++ difference place kept.now exchanged.now) }
{
    if kept.same(exchanged) {
        return Ok(());
    }
    list.push(Difference {
        place,
        kept: *kept,
        exchanged: *exchanged,
    })
}

/// The same of a global, if it exists in the layer.
fn push_global(
    list: &mut List<Difference>,
    layer: u32,
    global: &Global,
    at: usize,
    kept: &Value,
    exchanged: &Value,
) -> Result<(), Memory>
    ensures { OnOk result (list.new ≡ list.old ++ (if exists_at layer global.now then difference
        (Place.Global at) kept.now exchanged.now else [])) }
{
    if exists_at(layer, global) {
        push_difference(list, Place::Global(at), kept, exchanged)
    } else {
        Ok(())
    }
}

/// The globals that differ, behind the others.
fn push_globals(
    list: &mut List<Difference>,
    layer: u32,
    globals: &[Global],
    kept: &[Value],
    exchanged: &[Value],
) -> Result<(), Memory>
    ensures { OnOk result (list.new ≡ list.old ++ globals_differ (exists_at layer) 0 globals.now kept.now exchanged.now) }
{
    for at in 0..globals.len().min(kept.len()).min(exchanged.len()) {
        push_global(list, layer, &globals[at], at, &kept[at], &exchanged[at])?;
    }
    Ok(())
}

/// The outputs that differ, behind the others.
fn push_outs(
    list: &mut List<Difference>,
    which: Which,
    kept: &[Value],
    exchanged: &[Value],
) -> Result<(), Memory>
    ensures { OnOk result (list.new ≡ list.old ++ outs_differ which 0 kept.now exchanged.now) }
{
    for at in 0..kept.len().min(exchanged.len()) {
        push_difference(list, Place::Output(which, at), &kept[at], &exchanged[at])?;
    }
    Ok(())
}

/// All places in which the two orders differ.
pub(crate) fn differences(
    alloc: Alloc,
    layer: u32,
    program: &Program,
    kept: &Order,
    exchanged: &Order,
) -> Result<List<Difference>, Memory>
    ensures { IfOk result (λ list. list ≡ differences (exists_at layer) program.now kept.now exchanged.now) }
{
    let mut list = List::new(alloc);
    push_globals(
        &mut list,
        layer,
        program.globals.as_slice(),
        kept.second.store.values.as_slice(),
        exchanged.second.store.values.as_slice(),
    )?;
    push_outs(
        &mut list,
        Which::First,
        kept.first.outs.as_slice(),
        exchanged.second.outs.as_slice(),
    )?;
    push_outs(
        &mut list,
        Which::Second,
        kept.second.outs.as_slice(),
        exchanged.first.outs.as_slice(),
    )?;
    Ok(list)
}
