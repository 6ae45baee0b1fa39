// Actions with values for their inputs and their choices.
ghost use Rattle.std.specs.Prelude.{◌≡◌, ◌+◌, List as ListOf, ℕ, drop, length, IfOk};
ghost use Rattle.civl_bits.specs.declared.value.Value.{Value as Given};
ghost use Rattle.civl_conditions.specs.Movers.{gate_of};
ghost use Rattle.civl_conditions.specs.Values.{invoked, instance_count};
ghost use Rattle.civl_clashes.specs.Effects.{effect_of, instance, pair};
ghost use Rattle.civl_clashes.specs.inner.Calls.{meant};

use crate::violations::{Effect, Instance, Pair};
use civl_bits::Value;
use civl_firing::firing::{gate, transition};
use civl_firing::{Fired, Store};
use civl_meaning::slices::{behind, first};
use civl_tree::{Action, List, Memory, Program, both};
use std::alloc::Global;

/// An action by its number and as it is declared, with values for its inputs and its choices.
#[derive(Clone, Copy)]
pub(crate) struct Call<'a> {
    pub number: u32,
    pub action: &'a Action,
    pub inputs: &'a [Value],
    pub chosen: &'a [Value],
}

/// An action whose values stand first among these.
pub(crate) fn call_of<'a>(number: u32, action: &'a Action, values: &'a [Value]) -> Call<'a>
    ensures number { result.number ≡ number }
    ensures values { (all : ListOf Given) (at : ℕ) → values.now ≡ drop at all → meant result ≡ invoked all at action.now }
{
    let params = action.params.len();
    Call {
        number,
        action,
        inputs: first(values, params),
        chosen: first(behind(values, params), action.choices.len()),
    }
}

/// The values behind those of an action.
pub(crate) fn behind_call<'a>(action: &Action, values: &'a [Value]) -> &'a [Value]
    ensures { (all : ListOf Given) (at : ℕ) → values.now ≡ drop at all → result.now ≡ drop (at + instance_count action.now) all }
{
    behind(behind(values, action.params.len()), action.choices.len())
}

/// Whether the action's gate is true.
pub(crate) fn gate_of(program: &Program, store: &Store, call: &Call<'_>) -> bool
    ensures { result ≡ gate_of program.now store.now (meant call.now) }
{
    gate(program.globals.as_slice(), store, call.action, call.inputs)
}

/// What the action leaves, where its guard is true.
pub(crate) fn effect_of(
    alloc: Global,
    program: &Program,
    store: &Store,
    call: &Call<'_>,
) -> Result<Option<Effect>, Memory>
    ensures { IfOk result (λ found. found ≡ effect_of program.now store.now (meant call.now)) }
{
    let globals = program.globals.as_slice();
    match transition(alloc, globals, store, call.action, call.inputs, call.chosen)? {
        Fired::Moved(store, outs) => Ok(Some(Effect { store, outs })),
        Fired::Blocked => Ok(None),
        Fired::GateFalse => Ok(None),
    }
}

/// These values.
pub(crate) fn copied(alloc: Global, values: &[Value]) -> Result<List<Value>, Memory>
    ensures { IfOk result (λ copy. copy ≡ values.now) }
{
    let items = Vec::from_slice(alloc, values)?;
    Ok(List::from_vec(items))
}

/// The action by its number, with its values.
pub(crate) fn instance(alloc: Global, call: &Call<'_>) -> Result<Instance, Memory>
    ensures { IfOk result (λ made. made ≡ instance call.now.number (meant call.now)) }
{
    match both(copied(alloc, call.inputs), copied(alloc, call.chosen)) {
        Ok((inputs, chosen)) => Ok(Instance {
            action: call.number,
            inputs,
            chosen,
        }),
        Err(error) => Err(error),
    }
}

/// A store and two actions.
pub(crate) fn pair(alloc: Global, store: Store, x: &Call<'_>, y: &Call<'_>) -> Result<Pair, Memory>
    ensures { IfOk result (λ made. made ≡ pair store x.now.number (meant x.now) y.now.number (meant y.now)) }
{
    match both(instance(alloc, x), instance(alloc, y)) {
        Ok((first, second)) => Ok(Pair {
            store,
            first,
            second,
        }),
        Err(error) => Err(error),
    }
}
