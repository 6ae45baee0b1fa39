// An action that waits at the choices that it offers.
ghost use Rattle.std.specs.Prelude.{◌≡◌, IfOk};
ghost use Rattle.civl_firing.specs.Scope.{gate_values, guard_values};
ghost use Rattle.civl_firing.specs.Settings.{scope_in};
ghost use Rattle.civl_firing.specs.Fired.{guard_holds, offers};
ghost use Rattle.civl_clashes.specs.inner.Calls.{meant};
ghost use Rattle.civl_clashes.specs.Told.{fire_violation};

use crate::call::{Call, copied, gate_of};
use crate::violations::{Instance, Violation};
use civl_bits::Value;
use civl_firing::Store;
use civl_firing::expressions::{holds, value};
use civl_firing::names::Names;
use civl_firing::setting::Setting;
use civl_tree::{List, Memory, Program};
use std::alloc::Global;

/// What an action's gate and offers are about.
#[tactic(auto, using(civl_firing::proofs::Joining::appending))]
fn at_gate<'a>(program: &'a Program, store: &'a Store, call: &Call<'a>) -> Setting<'a>
    ensures { scope_in result ≡ gate_values program.now.globals store.now call.now.action.now call.now.inputs.now }
{
    Setting {
        names: Names {
            globals: program.globals.as_slice(),
            params: call.action.params.as_slice(),
            choices: &[],
            outs: call.action.outs.as_slice(),
            locals: &[],
            behind: &[],
        },
        store: store.values.as_slice(),
        inputs: call.inputs,
        chosen: &[],
        zeros: call.action.outs.as_slice(),
    }
}

/// What an action's guard is about.
#[tactic(auto, using(civl_firing::proofs::Joining::appending))]
fn at_guard<'a>(
    program: &'a Program,
    store: &'a Store,
    call: &Call<'a>,
    chosen: &'a [Value],
) -> Setting<'a>
    ensures { scope_in result ≡ guard_values program.now.globals store.now call.now.action.now call.now.inputs.now chosen.now }
{
    Setting {
        names: Names {
            globals: program.globals.as_slice(),
            params: call.action.params.as_slice(),
            choices: call.action.choices.as_slice(),
            outs: call.action.outs.as_slice(),
            locals: &[],
            behind: &[],
        },
        store: store.values.as_slice(),
        inputs: call.inputs,
        chosen,
        zeros: call.action.outs.as_slice(),
    }
}

/// Whether the guard is true at these choices.
fn guard_holds(program: &Program, store: &Store, call: &Call<'_>, chosen: &[Value]) -> bool
    ensures { result ≡ guard_holds program.now.globals store.now call.now.action.now call.now.inputs.now chosen.now }
{
    holds(&at_guard(program, store, call, chosen), &call.action.guard)
}

/// What the action offers for its choices.
fn offers(
    alloc: Global,
    program: &Program,
    store: &Store,
    call: &Call<'_>,
) -> Result<List<Value>, Memory>
    ensures { IfOk result (λ offered. offered ≡ offers program.now.globals store.now call.now.action.now call.now.inputs.now) }
{
    let setting = at_gate(program, store, call);
    let mut offered = Vec::new(alloc);
    for choice in call.action.choices.as_slice() {
        offered.push(value(&setting, &choice.offer))?;
    }
    Ok(List::from_vec(offered))
}

/// That the action waits in a store, with these choices.
fn waits(
    alloc: Global,
    store: Store,
    call: &Call<'_>,
    chosen: List<Value>,
) -> Result<Option<Violation>, Memory>
    ensures { IfOk result (λ told. told ≡ Some (Violation.Waits store
        (record { action = call.now.number; inputs = call.now.inputs.now; chosen = chosen }))) }
{
    match copied(alloc, call.inputs) {
        Ok(inputs) => Ok(Some(Violation::Waits(
            store,
            Instance {
                action: call.number,
                inputs,
                chosen,
            },
        ))),
        Err(error) => Err(error),
    }
}

/// K8: the gate is true, and the guard false at the offered choices.
pub(crate) fn fire_violation(
    alloc: Global,
    program: &Program,
    store: Store,
    call: &Call<'_>,
) -> Result<Option<Violation>, Memory>
    ensures { IfOk result (λ told. told ≡ fire_violation program.now store call.now.number (meant call.now)) }
{
    if !gate_of(program, &store, call) {
        return Ok(None);
    }
    match offers(alloc, program, &store, call) {
        Ok(chosen) => {
            if guard_holds(program, &store, call, chosen.as_slice()) {
                Ok(None)
            } else {
                waits(alloc, store, call, chosen)
            }
        }
        Err(error) => Err(error),
    }
}
