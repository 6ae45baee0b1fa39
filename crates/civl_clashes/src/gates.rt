// What one action does to the gate of another.
ghost use Rattle.std.specs.Prelude.{◌≡◌, IfOk};
ghost use Rattle.civl_clashes.specs.inner.Calls.{meant};
ghost use Rattle.civl_clashes.specs.Gates.{spoil_of, reveal_of};

use crate::call::{Call, effect_of, gate_of};
use crate::violations::Effect;
use civl_firing::Store;
use civl_tree::{Memory, Program};
use std::alloc::Global;

/// What x leaves, where both gates are true and then y's is false.
pub(crate) fn spoil_of(
    alloc: Global,
    program: &Program,
    store: &Store,
    x: &Call<'_>,
    y: &Call<'_>,
) -> Result<Option<Effect>, Memory>
    ensures { IfOk result (λ found. found ≡ spoil_of program.now store.now (meant x.now) (meant y.now)) }
{
    if !gate_of(program, store, x) {
        return Ok(None);
    }
    if !gate_of(program, store, y) {
        return Ok(None);
    }
    match effect_of(alloc, program, store, x)? {
        Some(effect) => {
            if gate_of(program, &effect.store, y) {
                Ok(None)
            } else {
                Ok(Some(effect))
            }
        }
        None => Ok(None),
    }
}

/// What x leaves, where its gate is true and y's false, which is then true.
pub(crate) fn reveal_of(
    alloc: Global,
    program: &Program,
    store: &Store,
    x: &Call<'_>,
    y: &Call<'_>,
) -> Result<Option<Effect>, Memory>
    ensures { IfOk result (λ found. found ≡ reveal_of program.now store.now (meant x.now) (meant y.now)) }
{
    if !gate_of(program, store, x) {
        return Ok(None);
    }
    if gate_of(program, store, y) {
        return Ok(None);
    }
    match effect_of(alloc, program, store, x)? {
        Some(effect) => {
            if gate_of(program, &effect.store, y) {
                Ok(Some(effect))
            } else {
                Ok(None)
            }
        }
        None => Ok(None),
    }
}
