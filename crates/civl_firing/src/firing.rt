//! What comes of an action, and its parts: the gate, the choices, the transition and the writing of a value.
ghost use Rattle.std.specs.Prelude.{◌≡◌, ◌<◌, length, map, slice_get, slice_set, IfOk, IfSome};
ghost use Rattle.civl_firing.specs.values.Values.{are_of};
ghost use Rattle.civl_tree.specs.rules.Names.{global_names, param_names};
ghost use Rattle.civl_firing.specs.Names.{names_of};
ghost use Rattle.civl_firing.specs.Settings.{scope_in};
ghost use Rattle.civl_firing.specs.Fired.{gate_holds, choices_fit, updated, store_after, outs_after, fires, fired_by, fired};

use crate::expressions::{holds, value};
use crate::names::{Names, place};
use crate::setting::{Setting, at_gate, at_guard};
use crate::sorts::push_params;
use crate::store::Store;
use crate::values::is_of;
use civl_bits::Value;
use civl_tree::{Action, Choice, Global, List, Memory, Param, Program, Update};
use std::alloc::Global as Alloc;

/// What comes of an action: its gate is false, or its guard is, or it gives a store and its outputs.
#[derive(Drop)]
pub enum Fired {
    GateFalse,
    Blocked,
    Moved(Store, List<Value>),
}

/// The names of the globals alone, as targets.
#[tactic(auto, using(crate::proofs::Joining::appending))]
pub fn global_targets<'a>(globals: &'a [Global]) -> Names<'a>
    ensures { names_of result ≡ global_names globals.now }
{
    Names {
        globals,
        params: &[],
        choices: &[],
        outs: &[],
        locals: &[],
        behind: &[],
    }
}

/// The names of outputs alone, as targets.
#[tactic(auto, using(crate::proofs::Joining::appending))]
pub fn out_targets<'a>(outs: &'a [Param]) -> Names<'a>
    ensures { names_of result ≡ param_names outs.now }
{
    Names {
        globals: &[],
        params: &[],
        choices: &[],
        outs,
        locals: &[],
        behind: &[],
    }
}

/// Puts a value at a place, if there is one.
pub fn write(values: &mut Vec<Value>, at: usize, value: Value)
    ensures { values.new.items ≡ slice_set values.old.items at value }
{
    if at < values.len() {
        values[at] = value;
    }
}

/// Whether values have the number and the sorts of choices.
#[tactic(auto, using(crate::proofs::Fitting::fitting))]
fn fit(choices: &[Choice], chosen: &[Value]) -> bool
    ensures { result ≡ are_of chosen.now (map (λ c. c.sort) choices.now) }
{
    let mut at = 0;
    for choice in choices {
        if at == chosen.len() {
            return false;
        }
        if !is_of(chosen[at], choice.sort) {
            return false;
        }
        at += 1;
    }
    if at < chosen.len() {
        return false;
    }
    true
}

/// Whether values have the number and the sorts of an action's choices.
pub fn choices_fit(action: &Action, chosen: &[Value]) -> bool
    ensures { result ≡ choices_fit action.now chosen.now }
{
    fit(action.choices.as_slice(), chosen)
}

/// Puts into each of these targets that is updated the update's value in the setting, which stays.
fn update(targets: &Names<'_>, values: &mut Vec<Value>, setting: &Setting<'_>, updates: &[Update])
    ensures { values.new.items ≡ updated (names_of targets.now) values.old.items (scope_in setting.now) updates.now }
{
    for one in updates {
        write(
            values,
            place(targets, &one.target),
            value(setting, &one.expr),
        );
    }
}

/// Whether the gate is true.
#[tactic(auto, unfolding(crate::specs::Fired::gate_holds))]
pub fn gate(globals: &[Global], store: &Store, action: &Action, inputs: &[Value]) -> bool
    ensures { result ≡ gate_holds globals.now store.now action.now inputs.now }
{
    holds(&at_gate(globals, store, action, inputs), &action.gate)
}

/// The store and the outputs after the updates.
fn moved(
    alloc: Alloc,
    globals: &[Global],
    store: &Store,
    action: &Action,
    inputs: &[Value],
    chosen: &[Value],
) -> Result<Fired, Memory>
    ensures { IfOk result (λ f. f ≡ Fired.Moved (store_after globals.now store.now action.now inputs.now chosen.now) (outs_after globals.now store.now action.now inputs.now chosen.now)) }
{
    let setting = at_guard(globals, store, action, inputs, chosen);
    let updates = action.updates.as_slice();
    let outs = action.outs.as_slice();
    let mut values = Vec::from_slice(alloc, store.values.as_slice())?;
    update(&global_targets(globals), &mut values, &setting, updates);
    let mut results = Vec::new(alloc);
    push_params(&mut results, outs)?;
    update(&out_targets(outs), &mut results, &setting, updates);
    Ok(Fired::Moved(
        Store {
            values: List::from_vec(values),
        },
        List::from_vec(results),
    ))
}

/// What comes of an action whose gate is true.
///
/// # Errors
///
/// For want of memory.
#[tactic(auto, unfolding(crate::specs::Fired::fires))]
pub fn transition(
    alloc: Alloc,
    globals: &[Global],
    store: &Store,
    action: &Action,
    inputs: &[Value],
    chosen: &[Value],
) -> Result<Fired, Memory>
    ensures { IfOk result (λ f. f ≡ fired_by (fires globals.now store.now action.now inputs.now chosen.now)) }
{
    if !holds(
        &at_guard(globals, store, action, inputs, chosen),
        &action.guard,
    ) {
        return Ok(Fired::Blocked);
    }
    moved(alloc, globals, store, action, inputs, chosen)
}

/// What comes of the action with this number in a store, with these values for its parameters and its choices.
///
/// `GateFalse` where the gate is false, `Blocked` where the gate is true and the guard false; else the store in which
/// all updated globals are replaced at once, and the outputs.
///
/// # Errors
///
/// For want of memory.
#[tactic(auto, unfolding(crate::specs::Fired::fired))]
pub fn fire(
    alloc: Alloc,
    program: &Program,
    action: u32,
    store: &Store,
    inputs: &List<Value>,
    choices: &List<Value>,
) -> Result<Fired, Memory>
    requires { action < length program.now.actions }
    ensures { IfOk result (λ f. IfSome (slice_get program.now.actions action) (λ a. f ≡ fired program.now.globals store.now a inputs.now choices.now)) }
{
    let globals = program.globals.as_slice();
    let action = program.actions.get(action as usize);
    if !gate(globals, store, action, inputs.as_slice()) {
        return Ok(Fired::GateFalse);
    }
    transition(
        alloc,
        globals,
        store,
        action,
        inputs.as_slice(),
        choices.as_slice(),
    )
}
