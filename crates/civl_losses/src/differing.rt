// The globals and the outputs that have one value after and another before.
ghost use Rattle.std.specs.Prelude.{◌≡◌, ◌++◌, OnOk, IfOk, option_copied, if◌then◌else◌, []};
ghost use Rattle.civl_conditions.specs.footprints.Agreement.{exists_at};
ghost use Rattle.civl_losses.specs.declared.loss.Loss.TheVariants.{Changes as TheyChange, ActionGives as ActionHas};
ghost use Rattle.civl_losses.specs.Losses.{differ, globals_differ, outs_differ, where_any};
ghost use Rattle.civl_losses.specs.inner.Routes.{out_differs};

use crate::loss::Loss;
use civl_bits::Value;
use civl_conditions::exists_at;
use civl_firing::values::nothing;
use civl_traces::Changed;
use civl_tree::{Global, List, Memory};
use std::alloc::Global as Alloc;

/// Puts a place behind others, where its two values differ.
fn push_differing(
    list: &mut List<Changed>,
    place: usize,
    after: &Value,
    before: &Value,
) -> Result<(), Memory>
    ensures { OnOk result (list.new ≡ list.old ++ differ place after.now before.now) }
{
    if after.same(before) {
        return Ok(());
    }
    list.push(Changed {
        place,
        before: *before,
        after: *after,
    })
}

/// The same of a global, if it exists in the layer.
fn push_global(
    list: &mut List<Changed>,
    layer: u32,
    global: &Global,
    place: usize,
    after: &Value,
    before: &Value,
) -> Result<(), Memory>
    ensures { OnOk result (list.new ≡ list.old ++ (if exists_at layer global.now then differ place after.now before.now else [])) }
{
    if exists_at(layer, global) {
        push_differing(list, place, after, before)
    } else {
        Ok(())
    }
}

/// The globals that differ, behind others.
fn push_globals(
    list: &mut List<Changed>,
    layer: u32,
    globals: &[Global],
    after: &[Value],
    before: &[Value],
) -> Result<(), Memory>
    ensures { OnOk result (list.new ≡ list.old ++ globals_differ (exists_at layer) 0 globals.now after.now before.now) }
{
    for at in 0..globals.len().min(after.len()).min(before.len()) {
        push_global(list, layer, &globals[at], at, &after[at], &before[at])?;
    }
    Ok(())
}

/// The globals of a layer that have one value after and another before.
pub(crate) fn globals_differ(
    alloc: Alloc,
    layer: u32,
    globals: &[Global],
    after: &[Value],
    before: &[Value],
) -> Result<List<Changed>, Memory>
    ensures { IfOk result (λ list. list ≡ globals_differ (exists_at layer) 0 globals.now after.now before.now) }
{
    let mut list = List::new(alloc);
    push_globals(&mut list, layer, globals, after, before)?;
    Ok(list)
}

/// Puts an output behind others, where it has one value after and another before, or a value in one of them alone.
fn push_out(
    list: &mut List<Changed>,
    place: usize,
    after: Option<&Value>,
    before: Option<&Value>,
) -> Result<(), Memory>
    ensures { OnOk result (list.new ≡ list.old ++ out_differs place (option_copied after.entry) (option_copied before.entry)) }
{
    match after {
        Some(value) => match before {
            Some(old) => push_differing(list, place, value, old),
            None => list.push(Changed {
                place,
                before: nothing(),
                after: *value,
            }),
        },
        None => match before {
            Some(old) => list.push(Changed {
                place,
                before: *old,
                after: nothing(),
            }),
            None => Ok(()),
        },
    }
}

/// The outputs that differ, behind others.
fn push_outs(list: &mut List<Changed>, after: &[Value], before: &[Value]) -> Result<(), Memory>
    ensures { OnOk result (list.new ≡ list.old ++ outs_differ 0 after.now before.now) }
{
    for at in 0..after.len().max(before.len()) {
        push_out(list, at, after.get(at), before.get(at))?;
    }
    Ok(())
}

/// The outputs that have one value after and another before.
pub(crate) fn outs_differ(
    alloc: Alloc,
    after: &[Value],
    before: &[Value],
) -> Result<List<Changed>, Memory>
    ensures { IfOk result (λ list. list ≡ outs_differ 0 after.now before.now) }
{
    let mut list = List::new(alloc);
    push_outs(&mut list, after, before)?;
    Ok(list)
}

/// The loss of these changes, if there are any.
pub(crate) fn changes(globals: List<Changed>, outs: List<Changed>) -> Option<Loss>
    ensures { result ≡ where_any TheyChange globals outs }
{
    if globals.is_empty() && outs.is_empty() {
        None
    } else {
        Some(Loss::Changes(globals, outs))
    }
}

/// The loss of other values that the refined action gives, if there are any.
pub(crate) fn action_gives(globals: List<Changed>, outs: List<Changed>) -> Option<Loss>
    ensures { result ≡ where_any ActionHas globals outs }
{
    if globals.is_empty() && outs.is_empty() {
        None
    } else {
        Some(Loss::ActionGives(globals, outs))
    }
}
