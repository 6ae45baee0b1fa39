// K3 to K7.
ghost use Rattle.std.specs.Prelude.{◌≡◌, IfOk, option_map};
ghost use Rattle.civl_conditions.specs.Movers.{apart};
ghost use Rattle.civl_clashes.specs.inner.Calls.{meant};
ghost use Rattle.civl_clashes.specs.Effects.{pair};
ghost use Rattle.civl_clashes.specs.Clashes.{clash_of};
ghost use Rattle.civl_clashes.specs.Gates.{spoil_of, reveal_of};
ghost use Rattle.civl_clashes.specs.Told.{pair_violation, apart_violation};

use crate::call::{Call, pair};
use crate::clash::clash_of;
use crate::gates::{reveal_of, spoil_of};
use crate::violations::Violation;
use civl_assumed::permissions::{are_apart, push_globals, push_params};
use civl_firing::Store;
use civl_tree::{Memory, Program};
use std::alloc::Global;

/// Whether no permission is in two of the linear globals and of the linear inputs of both actions.
fn is_apart(
    alloc: Global,
    program: &Program,
    store: &Store,
    x: &Call<'_>,
    y: &Call<'_>,
) -> Result<bool, Memory>
    ensures { IfOk result (λ is. is ≡ apart program.now store.now (meant x.now) (meant y.now)) }
{
    let mut lists = Vec::new(alloc);
    push_globals(
        alloc,
        &mut lists,
        program.globals.as_slice(),
        store.values.as_slice(),
    )?;
    push_params(alloc, &mut lists, x.action.params.as_slice(), x.inputs)?;
    push_params(alloc, &mut lists, y.action.params.as_slice(), y.inputs)?;
    Ok(are_apart(lists.as_slice()))
}

/// That x and then y can't be exchanged, if so.
fn clashes(
    alloc: Global,
    program: &Program,
    step: u32,
    store: Store,
    x: &Call<'_>,
    y: &Call<'_>,
) -> Result<Option<Violation>, Memory>
    ensures { IfOk result (λ told. told ≡ option_map (Violation.Clashes (pair store x.now.number (meant x.now) y.now.number
        (meant y.now))) (clash_of program.now step store (meant x.now) (meant y.now))) }
{
    match clash_of(alloc, program, step, &store, x, y)? {
        Some(clash) => match pair(alloc, store, x, y) {
            Ok(pair) => Ok(Some(Violation::Clashes(pair, clash))),
            Err(error) => Err(error),
        },
        None => Ok(None),
    }
}

/// That x makes the gate of y false, if so.
fn spoils(
    alloc: Global,
    program: &Program,
    store: Store,
    x: &Call<'_>,
    y: &Call<'_>,
) -> Result<Option<Violation>, Memory>
    ensures { IfOk result (λ told. told ≡ option_map (Violation.Spoils (pair store x.now.number (meant x.now) y.now.number
        (meant y.now))) (spoil_of program.now store (meant x.now) (meant y.now))) }
{
    match spoil_of(alloc, program, &store, x, y)? {
        Some(effect) => match pair(alloc, store, x, y) {
            Ok(pair) => Ok(Some(Violation::Spoils(pair, effect))),
            Err(error) => Err(error),
        },
        None => Ok(None),
    }
}

/// That x makes the gate of y true, if so.
fn reveals(
    alloc: Global,
    program: &Program,
    store: Store,
    x: &Call<'_>,
    y: &Call<'_>,
) -> Result<Option<Violation>, Memory>
    ensures { IfOk result (λ told. told ≡ option_map (Violation.Reveals (pair store x.now.number (meant x.now) y.now.number
        (meant y.now))) (reveal_of program.now store (meant x.now) (meant y.now))) }
{
    match reveal_of(alloc, program, &store, x, y)? {
        Some(effect) => match pair(alloc, store, x, y) {
            Ok(pair) => Ok(Some(Violation::Reveals(pair, effect))),
            Err(error) => Err(error),
        },
        None => Ok(None),
    }
}

/// K3 to K7 by their numbers.
fn pair_violation(
    alloc: Global,
    program: &Program,
    number: u32,
    step: u32,
    store: Store,
    x: &Call<'_>,
    y: &Call<'_>,
) -> Result<Option<Violation>, Memory>
    ensures { IfOk result (λ told. told ≡ pair_violation program.now number step store x.now.number (meant x.now) y.now.number
        (meant y.now)) }
{
    match number {
        3 => clashes(alloc, program, step, store, x, y),
        4 => spoils(alloc, program, store, x, y),
        5 => clashes(alloc, program, step, store, y, x),
        6 => spoils(alloc, program, store, y, x),
        7 => reveals(alloc, program, store, x, y),
        _ => Ok(None),
    }
}

/// The same, where the permissions of both actions and of the globals are apart.
pub(crate) fn apart_violation(
    alloc: Global,
    program: &Program,
    number: u32,
    step: u32,
    store: Store,
    x: &Call<'_>,
    y: &Call<'_>,
) -> Result<Option<Violation>, Memory>
    ensures { IfOk result (λ told. told ≡ apart_violation program.now number step store x.now.number (meant x.now) y.now.number
        (meant y.now)) }
{
    match is_apart(alloc, program, &store, x, y) {
        Ok(apart) => {
            if apart {
                pair_violation(alloc, program, number, step, store, x, y)
            } else {
                Ok(None)
            }
        }
        Err(error) => Err(error),
    }
}
