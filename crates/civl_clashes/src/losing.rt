// K2: an action keeps permissions apart and makes none.
ghost use Rattle.std.specs.Prelude.{◌≡◌, ◌++◌, ◌∷◌, [], flat_map, option_map, option_and_then, OnOk, IfOk, if◌then◌else◌};
ghost use Rattle.civl_tree.specs.rules.Width.{is_linear};
ghost use Rattle.civl_meaning.specs.Permissions.{permissions_of_word, permissions_of_global};
ghost use Rattle.civl_linear.specs.Modes.{is_lent};
ghost use Rattle.civl_conditions.specs.Permissions.{in_store, of_inputs};
ghost use Rattle.civl_clashes.specs.inner.Calls.{meant};
ghost use Rattle.civl_clashes.specs.declared.violations.Carrier.TheVariants as carrier;
ghost use Rattle.civl_clashes.specs.Effects.{effect_of};
ghost use Rattle.civl_clashes.specs.Losses.{by_globals, by_params, by_outs, carried_out, loss_among, loss_in, loss_of};
ghost use Rattle.civl_clashes.specs.Told.{keep_violation};

use crate::call::{Call, effect_of, gate_of, instance};
use crate::carried::loss_among;
use crate::violations::{Carried, Carrier, Effect, Loss, Violation};
use civl_assumed::permissions::{are_apart, of_global, of_word, push_globals, push_params};
use civl_bits::Value;
use civl_firing::Store;
use civl_linear::is_lent;
use civl_tree::{Global as GlobalVar, List, Memory, Mode, Param, Program};
use std::alloc::Global;

// ---- what comes out

/// Whether an output of this mode is linear.
fn is_linear(mode: Mode) -> bool
    ensures { result ≡ is_linear mode }
{
    match mode {
        Mode::Val => false,
        Mode::Lend | Mode::Take | Mode::Give => true,
    }
}

/// What a global carries, if it is linear.
fn push_global(
    alloc: Global,
    carried: &mut List<Carried>,
    at: usize,
    global: &GlobalVar,
    value: &Value,
) -> Result<(), Memory>
    ensures { OnOk result (carried.new ≡ carried.old ++ (if global.now.linear
        then record { carrier = carrier.Global at; permissions = permissions_of_global value.now } ∷ [] else [])) }
{
    if !global.linear {
        return Ok(());
    }
    let permissions = of_global(alloc, value)?;
    carried.push(Carried {
        carrier: Carrier::Global(at),
        permissions,
    })
}

/// What each linear global carries.
fn push_all_globals(
    alloc: Global,
    carried: &mut List<Carried>,
    globals: &[GlobalVar],
    values: &[Value],
) -> Result<(), Memory>
    ensures { OnOk result (carried.new ≡ carried.old ++ by_globals 0 globals.now values.now) }
{
    for at in 0..globals.len().min(values.len()) {
        push_global(alloc, carried, at, &globals[at], &values[at])?;
    }
    Ok(())
}

/// What a word carries, if the test of its mode was passed.
fn push_word(
    alloc: Global,
    carried: &mut List<Carried>,
    passed: bool,
    carrier: Carrier,
    value: &Value,
) -> Result<(), Memory>
    ensures { OnOk result (carried.new ≡ carried.old ++ (if passed
        then record { carrier = carrier; permissions = permissions_of_word value.now } ∷ [] else [])) }
{
    if !passed {
        return Ok(());
    }
    let permissions = of_word(alloc, value)?;
    carried.push(Carried {
        carrier,
        permissions,
    })
}

/// What each lent parameter carries.
fn push_all_params(
    alloc: Global,
    carried: &mut List<Carried>,
    params: &[Param],
    values: &[Value],
) -> Result<(), Memory>
    ensures { OnOk result (carried.new ≡ carried.old ++ by_params 0 params.now values.now) }
{
    for at in 0..params.len().min(values.len()) {
        push_word(
            alloc,
            carried,
            is_lent(params[at].mode),
            Carrier::Param(at),
            &values[at],
        )?;
    }
    Ok(())
}

/// What each linear output carries.
fn push_all_outs(
    alloc: Global,
    carried: &mut List<Carried>,
    outs: &[Param],
    values: &[Value],
) -> Result<(), Memory>
    ensures { OnOk result (carried.new ≡ carried.old ++ by_outs 0 outs.now values.now) }
{
    for at in 0..outs.len().min(values.len()) {
        push_word(
            alloc,
            carried,
            is_linear(outs[at].mode),
            Carrier::Out(at),
            &values[at],
        )?;
    }
    Ok(())
}

/// What comes out of an action that leaves this.
fn carried_out(
    alloc: Global,
    program: &Program,
    call: &Call<'_>,
    effect: &Effect,
) -> Result<List<Carried>, Memory>
    ensures { IfOk result (λ carried. carried ≡ carried_out program.now (meant call.now) effect.now) }
{
    let mut carried = List::new(alloc);
    push_all_globals(
        alloc,
        &mut carried,
        program.globals.as_slice(),
        effect.store.values.as_slice(),
    )?;
    push_all_params(
        alloc,
        &mut carried,
        call.action.params.as_slice(),
        call.inputs,
    )?;
    push_all_outs(
        alloc,
        &mut carried,
        call.action.outs.as_slice(),
        effect.outs.as_slice(),
    )?;
    Ok(carried)
}

// ---- what goes in

/// The permissions that go in, each carrier's by itself.
fn carried_in(
    alloc: Global,
    program: &Program,
    store: &Store,
    call: &Call<'_>,
) -> Result<Vec<List<u32>>, Memory>
    ensures { IfOk result (λ lists. lists.items ≡ in_store program.now store.now ++ of_inputs (meant call.now)) }
{
    let mut lists = Vec::new(alloc);
    push_globals(
        alloc,
        &mut lists,
        program.globals.as_slice(),
        store.values.as_slice(),
    )?;
    push_params(
        alloc,
        &mut lists,
        call.action.params.as_slice(),
        call.inputs,
    )?;
    Ok(lists)
}

/// All of these permissions in one list.
fn joined(alloc: Global, lists: &[List<u32>]) -> Result<Vec<u32>, Memory>
    ensures { IfOk result (λ all. all.items ≡ flat_map (λ ps. ps) lists.now) }
{
    let mut all = Vec::new(alloc);
    for list in lists {
        all.extend_from_slice(list.as_slice())?;
    }
    Ok(all)
}

// ---- K2

/// The loss in what an action leaves, where these permissions went in.
fn loss_in(
    alloc: Global,
    program: &Program,
    call: &Call<'_>,
    effect: Effect,
    incoming: &[u32],
) -> Result<Option<(Effect, Loss)>, Memory>
    ensures { IfOk result (λ found. found ≡ option_map (λ l. (effect, l))
        (loss_among (carried_out program.now (meant call.now) effect) incoming.now)) }
{
    match carried_out(alloc, program, call, &effect) {
        Ok(carried) => match loss_among(carried.as_slice(), incoming) {
            Some(loss) => Ok(Some((effect, loss))),
            None => Ok(None),
        },
        Err(error) => Err(error),
    }
}

/// What the action leaves, with the loss in it, where these permissions went in.
fn loss_after(
    alloc: Global,
    program: &Program,
    store: &Store,
    call: &Call<'_>,
    lists: &[List<u32>],
) -> Result<Option<(Effect, Loss)>, Memory>
    ensures { IfOk result (λ found. found ≡ option_and_then (loss_in program.now (meant call.now) lists.now)
        (effect_of program.now store.now (meant call.now))) }
{
    match effect_of(alloc, program, store, call)? {
        Some(effect) => match joined(alloc, lists) {
            Ok(incoming) => loss_in(alloc, program, call, effect, incoming.as_slice()),
            Err(error) => Err(error),
        },
        None => Ok(None),
    }
}

/// What the action leaves, with the loss in it, where what goes in is apart and the gate is true.
fn loss_of(
    alloc: Global,
    program: &Program,
    store: &Store,
    call: &Call<'_>,
) -> Result<Option<(Effect, Loss)>, Memory>
    ensures { IfOk result (λ found. found ≡ loss_of program.now store.now (meant call.now)) }
{
    if !gate_of(program, store, call) {
        return Ok(None);
    }
    match carried_in(alloc, program, store, call) {
        Ok(lists) => {
            if are_apart(lists.as_slice()) {
                loss_after(alloc, program, store, call, lists.as_slice())
            } else {
                Ok(None)
            }
        }
        Err(error) => Err(error),
    }
}

/// K2, of an action in a store.
pub(crate) fn keep_violation(
    alloc: Global,
    program: &Program,
    store: Store,
    call: &Call<'_>,
) -> Result<Option<Violation>, Memory>
    ensures { IfOk result (λ told. told ≡ keep_violation program.now store call.now.number (meant call.now)) }
{
    match loss_of(alloc, program, &store, call)? {
        Some((effect, loss)) => match instance(alloc, call) {
            Ok(instance) => Ok(Some(Violation::Loses(store, instance, effect, loss))),
            Err(error) => Err(error),
        },
        None => Ok(None),
    }
}
