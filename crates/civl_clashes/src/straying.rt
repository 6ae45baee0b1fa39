// K11: an action keeps a target.
ghost use Rattle.std.specs.Prelude.{◌≡◌, option_and_then, IfOk};
ghost use Rattle.civl_linear.specs.Cuts.{all_held};
ghost use Rattle.civl_clashes.specs.inner.Calls.{meant};
ghost use Rattle.civl_clashes.specs.Effects.{effect_of};
ghost use Rattle.civl_clashes.specs.Strays.{apart_beside, lost_in, stray_of};
ghost use Rattle.civl_clashes.specs.Told.{act_violation};

use crate::call::{Call, effect_of, gate_of, instance};
use crate::violations::{Effect, Violation};
use civl_assumed::invariants::invariants_hold;
use civl_assumed::permissions::{are_apart, push_globals, push_params};
use civl_assumed::{push_target_owned, target_lost};
use civl_bits::Value;
use civl_conditions::Target;
use civl_firing::Store;
use civl_layers::{Held, Layered, program};
use civl_tree::Memory;
use std::alloc::Global;

/// A target of a step, with the values of the frame there, which these begin with.
#[derive(Clone, Copy)]
pub(crate) struct Aim<'a> {
    pub src: &'a Layered,
    pub held: &'a Held,
    pub step: u32,
    pub target: Target,
    pub values: &'a [Value],
}

/// Whether no permission is in two of the linear globals, of the linear inputs and of the held locals of the frame at the target.
fn is_apart(alloc: Global, aim: &Aim<'_>, store: &Store, call: &Call<'_>) -> Result<bool, Memory>
    requires held { aim.now.held.now.cuts ≡ all_held aim.now.src.now }
    ensures { IfOk result (λ is. is ≡ apart_beside aim.now.src.now store.now (meant call.now) aim.now.target aim.now.values.now 0) }
{
    let globals = program(aim.src).globals.as_slice();
    let mut lists = Vec::new(alloc);
    push_globals(alloc, &mut lists, globals, store.values.as_slice())?;
    push_params(
        alloc,
        &mut lists,
        call.action.params.as_slice(),
        call.inputs,
    )?;
    push_target_owned(
        alloc, &mut lists, aim.src, aim.held, aim.target, aim.values, 0,
    )?;
    Ok(are_apart(lists.as_slice()))
}

/// What was left, where it loses the target.
fn lost_in(
    alloc: Global,
    aim: &Aim<'_>,
    store: &Store,
    effect: Effect,
) -> Result<Option<Effect>, Memory>
    ensures { IfOk result (λ found. found ≡ lost_in aim.now.src.now aim.now.step store.now aim.now.target aim.now.values.now 0 effect) }
{
    match target_lost(
        alloc,
        aim.src,
        aim.step,
        aim.target,
        aim.values,
        0,
        store,
        &effect.store,
    ) {
        Ok(lost) => { if lost { Ok(Some(effect)) } else { Ok(None) } }
        Err(error) => Err(error),
    }
}

/// What the action leaves, where that loses the target.
fn effect_lost(
    alloc: Global,
    aim: &Aim<'_>,
    store: &Store,
    call: &Call<'_>,
) -> Result<Option<Effect>, Memory>
    ensures { IfOk result (λ found. found ≡ option_and_then
        (lost_in aim.now.src.now aim.now.step store.now aim.now.target aim.now.values.now 0)
        (effect_of aim.now.src.now store.now (meant call.now))) }
{
    match effect_of(alloc, program(aim.src), store, call)? {
        Some(effect) => lost_in(alloc, aim, store, effect),
        None => Ok(None),
    }
}

/// The same, where the invariants of the step and the gate hold, and what goes in is apart.
fn stray_of(
    alloc: Global,
    aim: &Aim<'_>,
    store: &Store,
    call: &Call<'_>,
) -> Result<Option<Effect>, Memory>
    requires held { aim.now.held.now.cuts ≡ all_held aim.now.src.now }
    ensures { IfOk result (λ found. found ≡ stray_of aim.now.src.now aim.now.step store.now (meant call.now)
        aim.now.target aim.now.values.now 0) }
{
    if !invariants_hold(program(aim.src), aim.step, store) {
        return Ok(None);
    }
    if !gate_of(program(aim.src), store, call) {
        return Ok(None);
    }
    if is_apart(alloc, aim, store, call)? {
        effect_lost(alloc, aim, store, call)
    } else {
        Ok(None)
    }
}

/// K11, of an action in a store.
pub(crate) fn act_violation(
    alloc: Global,
    aim: &Aim<'_>,
    store: Store,
    call: &Call<'_>,
) -> Result<Option<Violation>, Memory>
    requires held { aim.now.held.now.cuts ≡ all_held aim.now.src.now }
    ensures { IfOk result (λ told. told ≡ act_violation aim.now.src.now aim.now.step store call.now.number (meant call.now)
        aim.now.target aim.now.values.now 0) }
{
    match stray_of(alloc, aim, &store, call)? {
        Some(effect) => match instance(alloc, call) {
            Ok(instance) => Ok(Some(Violation::Strays(store, instance, effect))),
            Err(error) => Err(error),
        },
        None => Ok(None),
    }
}
