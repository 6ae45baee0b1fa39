// Why two actions can't be exchanged.
ghost use Rattle.std.specs.Prelude.{◌≡◌, ◌-◌, ℕ, IfOk};
ghost use Rattle.civl_conditions.specs.footprints.Agreement.{exists_at};
ghost use Rattle.civl_clashes.specs.inner.Calls.{meant};
ghost use Rattle.civl_clashes.specs.Effects.{effect_of, order_behind, order_of};
ghost use Rattle.civl_clashes.specs.Differences.{differences};
ghost use Rattle.civl_clashes.specs.Clashes.{ends, exchanged_behind, exchanged_from, exchanged_of, clash_beside, clash_of};

use crate::call::{Call, effect_of, gate_of};
use crate::difference::differences;
use crate::violations::{Clash, Effect, Exchanged, Order};
use civl_firing::Store;
use civl_tree::{Memory, Program};
use std::alloc::Global;

/// What an action leaves behind another one, where its gate and its guard are true there.
fn order_behind(
    alloc: Global,
    program: &Program,
    call: &Call<'_>,
    first: Effect,
) -> Result<Option<Order>, Memory>
    ensures { IfOk result (λ found. found ≡ order_behind program.now (meant call.now) first) }
{
    if !gate_of(program, &first.store, call) {
        return Ok(None);
    }
    match effect_of(alloc, program, &first.store, call)? {
        Some(second) => Ok(Some(Order { first, second })),
        None => Ok(None),
    }
}

/// What two actions leave, where the gate of the second and both guards are true where they are made.
fn order_of(
    alloc: Global,
    program: &Program,
    store: &Store,
    x: &Call<'_>,
    y: &Call<'_>,
) -> Result<Option<Order>, Memory>
    ensures { IfOk result (λ found. found ≡ order_of program.now store.now (meant x.now) (meant y.now)) }
{
    match effect_of(alloc, program, store, x)? {
        Some(first) => order_behind(alloc, program, y, first),
        None => Ok(None),
    }
}

/// An exchanged order that is made, if it differs.
fn ends(
    alloc: Global,
    layer: u32,
    program: &Program,
    kept: &Order,
    exchanged: Order,
) -> Result<Option<Exchanged>, Memory>
    ensures { IfOk result (λ found. found ≡ ends exchanged (differences (exists_at layer) program.now kept.now exchanged)) }
{
    let list = differences(alloc, layer, program, kept, &exchanged)?;
    if list.is_empty() {
        return Ok(None);
    }
    Ok(Some(Exchanged::Ends(exchanged, list)))
}

/// The exchanged order, of which this was made first.
fn exchanged_behind(
    alloc: Global,
    layer: u32,
    program: &Program,
    x: &Call<'_>,
    kept: &Order,
    first: Effect,
) -> Result<Option<Exchanged>, Memory>
    ensures { IfOk result (λ found. found ≡ exchanged_behind (exists_at layer) program.now kept.now first
        (effect_of program.now first.store (meant x.now))) }
{
    match effect_of(alloc, program, &first.store, x)? {
        Some(second) => ends(alloc, layer, program, kept, Order { first, second }),
        None => Ok(Some(Exchanged::WaitsBehind(first))),
    }
}

/// What comes of the exchanged order, where it isn't what came of the other.
fn exchanged_of(
    alloc: Global,
    layer: u32,
    program: &Program,
    store: &Store,
    x: &Call<'_>,
    y: &Call<'_>,
    kept: &Order,
) -> Result<Option<Exchanged>, Memory>
    ensures { IfOk result (λ found. found ≡ exchanged_of (exists_at layer) program.now store.now (meant x.now) (meant y.now) kept.now) }
{
    match effect_of(alloc, program, store, y)? {
        Some(first) => exchanged_behind(alloc, layer, program, x, kept, first),
        None => Ok(Some(Exchanged::WaitsAtOnce)),
    }
}

/// Both orders, where the exchanged one doesn't come to the same.
fn clash_beside(
    alloc: Global,
    layer: u32,
    program: &Program,
    store: &Store,
    x: &Call<'_>,
    y: &Call<'_>,
    kept: Order,
) -> Result<Option<Clash>, Memory>
    ensures { IfOk result (λ found. found ≡ clash_beside (exists_at layer) program.now store.now (meant x.now) (meant y.now) kept) }
{
    match exchanged_of(alloc, layer, program, store, x, y, &kept)? {
        Some(exchanged) => Ok(Some(Clash { kept, exchanged })),
        None => Ok(None),
    }
}

/// Why x and then y can't be exchanged, in a store at a step.
pub(crate) fn clash_of(
    alloc: Global,
    program: &Program,
    step: u32,
    store: &Store,
    x: &Call<'_>,
    y: &Call<'_>,
) -> Result<Option<Clash>, Memory>
    ensures { IfOk result (λ found. found ≡ clash_of program.now step store.now (meant x.now) (meant y.now)) }
{
    if !gate_of(program, store, x) {
        return Ok(None);
    }
    if !gate_of(program, store, y) {
        return Ok(None);
    }
    match order_of(alloc, program, store, x, y)? {
        Some(kept) => clash_beside(alloc, step.saturating_sub(1), program, store, x, y, kept),
        None => Ok(None),
    }
}
