//! The store that a condition's values give to the globals of its step.
ghost use Rattle.std.specs.Prelude.{◌≡◌, count_by, drop, IfOk};
ghost use Rattle.civl_conditions.specs.Values.{spread, store_of, count_of};
ghost use Rattle.civl_assumed.specs.Among.{test_of};

use civl_bits::Value;
use civl_conditions::{exists_at, exists_near};
use civl_firing::Store;
use civl_firing::values::zero;
use civl_meaning::slices::behind;
use civl_tree::{Global, List, Memory, Program};
use std::alloc::Global as Alloc;

/// The globals that have values: all of them, those of a layer, or those of the layers of a step.
#[derive(Clone, Copy)]
pub enum Among {
    All,
    Layer(u32),
    Step(u32),
}

/// Whether a global has a value.
pub fn is_among(among: Among, global: &Global) -> bool
    ensures { result ≡ test_of among global.now }
{
    match among {
        Among::All => true,
        Among::Layer(layer) => exists_at(layer, global),
        Among::Step(step) => exists_near(step, global),
    }
}

/// The values of all globals, where those that have one are given.
fn spread(
    alloc: Alloc,
    among: Among,
    globals: &[Global],
    values: &[Value],
) -> Result<List<Value>, Memory>
    ensures { IfOk result (λ all. all ≡ spread (test_of among) globals.now values.now) }
{
    let mut all = Vec::new(alloc);
    let mut at = 0;
    for global in globals {
        if at < values.len() && is_among(among, global) {
            all.push(values[at])?;
            at += 1;
        } else {
            all.push(zero(global.sort))?;
        }
    }
    Ok(List::from_vec(all))
}

/// The store with these values.
pub fn store_of(
    alloc: Alloc,
    among: Among,
    program: &Program,
    values: &[Value],
) -> Result<Store, Memory>
    ensures { IfOk result (λ store. store ≡ store_of (test_of among) program.now values.now) }
{
    let values = spread(alloc, among, program.globals.as_slice(), values)?;
    Ok(Store { values })
}

/// How many globals have a value.
fn count(among: Among, globals: &[Global]) -> usize
    ensures { result ≡ count_by (test_of among) globals.now }
{
    globals
        .iter()
        .filter(|global| is_among(among, global))
        .count()
}

/// The values behind those of the globals.
pub fn behind_globals<'a>(among: Among, program: &Program, values: &'a [Value]) -> &'a [Value]
    ensures { result.now ≡ drop (count_of (test_of among) program.now) values.now }
{
    behind(values, count(among, program.globals.as_slice()))
}
