// The store with the shadow's values.
ghost use Rattle.std.specs.Prelude.{◌≡◌, ◌+◌, ◌<◌, ◌^◌, IfOk, drop};
ghost use Rattle.civl_reduction.specs.blocks.Shadow.{merged_values};
ghost use Rattle.civl_shadows.specs.inner.Merging.{picked};

use civl_bits::Value;
use civl_firing::Store;
use civl_tree::{Global, Memory};
use std::alloc::Global as Alloc;

/// The second value at a place where there is one, and the place's global has this first layer; else the first.
fn picked(first: u32, globals: &[Global], value: Value, introduced: &[Value], at: usize) -> Value
    ensures { result ≡ picked first (drop at globals.now) value (drop at introduced.now) }
{
    if at >= globals.len() {
        return value;
    }
    if at >= introduced.len() {
        return value;
    }
    if globals[at].first == first {
        introduced[at]
    } else {
        value
    }
}

/// The values of a store of a layer's program, with these for the globals that the next layer introduces.
///
/// # Errors
///
/// For want of memory.
pub fn merged(
    alloc: Alloc,
    globals: &[Global],
    layer: u32,
    store: &Store,
    introduced: &Store,
) -> Result<Vec<Value>, Memory>
    requires { layer + 1 < 2 ^ 32 }
    ensures { IfOk result (λ values. values.items ≡ merged_values (layer + 1) globals.now store.now.values introduced.now.values) }
{
    let kept = store.values.as_slice();
    let mut values = Vec::new(alloc);
    for at in 0..kept.len() {
        let value = picked(
            layer + 1,
            globals,
            kept[at],
            introduced.values.as_slice(),
            at,
        );
        values.push(value)?;
    }
    Ok(values)
}
