// The terms of actions.
ghost use Rattle.std.specs.Prelude.{◌+◌, ◌<◌, ◌≤◌, length, map, slice_get, IfOk, OnOk, IfSome};
ghost use Rattle.civl_tree.specs.rules.Names.{global_names, targets_of};
ghost use Rattle.civl_tree.specs.rules.Rules.{Keeps};
ghost use Rattle.civl_tree.specs.rules.Typing.{typing_rules};
ghost use Rattle.civl_firing.specs.values.ActionWeights.{gate_weight, guard_weight, offers_weight, updates_weight, action_weight};
ghost use Rattle.civl_terms.specs.Building.{Grows};
ghost use Rattle.civl_terms.specs.Weights.{graph_weight};
ghost use Rattle.civl_actions.specs.Scopes.{AreOf};
ghost use Rattle.civl_actions.specs.Actions.{IsGate, IsGuard, AreOffers, IsChange, IsInstance, LeavesOthers};
ghost use Rattle.civl_actions.specs.inner.Steps.{IsActionOf};

use crate::made::{Changed, Instance};
use crate::parts::{gate_of, guard_of, offers_of, updates_of};
use civl_terms::{Id, Memory, Terms};
use civl_tree::{Action, List, Program};
use std::alloc::Global as Alloc;

/// The term of the gate of the action with this number, at these terms for the globals and for its parameters.
///
/// The program keeps the rules E10 to E24, and the terms have the sorts of the globals and of the parameters. The graph's
/// weight rises by at most the gate's.
///
/// # Errors
///
/// For want of memory; the nodes before stay.
pub fn gate(
    alloc: Alloc,
    terms: &mut Terms,
    program: &Program,
    action: u32,
    globals: &List<Id>,
    inputs: &List<Id>,
) -> Result<Id, Memory>
    requires rules { Keeps typing_rules program.now }
    requires action { action < length program.now.actions }
    requires globals { AreOf terms.old globals.now (map (λ g. g.sort) program.now.globals) }
    requires inputs { IfSome (slice_get program.now.actions action) (λ a. AreOf terms.old inputs.now (map (λ p. p.sort) a.params)) }
    ensures gate { IfOk result (λ id. IfSome (slice_get program.now.actions action) (λ a. IsGate terms.old terms.new program.now a globals.now inputs.now id)) }
    ensures weighs { OnOk result (IfSome (slice_get program.now.actions action) (λ a. graph_weight terms.new ≤ graph_weight terms.old + gate_weight program.now a)) }
    ensures grows { Grows terms.old terms.new }
{
    let action = program.actions.get(action as usize);
    gate_of(
        alloc,
        terms,
        program,
        action,
        globals.as_slice(),
        inputs.as_slice(),
    )
}

/// The term of the guard of the action with this number, at these terms for the globals, for its parameters and for its
/// choices.
///
/// The program keeps the rules E10 to E24, and the terms have the sorts of the globals, the parameters and the choices. The
/// graph's weight rises by at most the guard's.
///
/// # Errors
///
/// For want of memory; the nodes before stay.
pub fn guard(
    alloc: Alloc,
    terms: &mut Terms,
    program: &Program,
    action: u32,
    globals: &List<Id>,
    inputs: &List<Id>,
    choices: &List<Id>,
) -> Result<Id, Memory>
    requires rules { Keeps typing_rules program.now }
    requires action { action < length program.now.actions }
    requires globals { AreOf terms.old globals.now (map (λ g. g.sort) program.now.globals) }
    requires inputs { IfSome (slice_get program.now.actions action) (λ a. AreOf terms.old inputs.now (map (λ p. p.sort) a.params)) }
    requires choices { IfSome (slice_get program.now.actions action) (λ a. AreOf terms.old choices.now (map (λ c. c.sort) a.choices)) }
    ensures guard { IfOk result (λ id. IfSome (slice_get program.now.actions action) (λ a. IsGuard terms.old terms.new program.now a globals.now inputs.now choices.now id)) }
    ensures weighs { OnOk result (IfSome (slice_get program.now.actions action) (λ a. graph_weight terms.new ≤ graph_weight terms.old + guard_weight program.now a)) }
    ensures grows { Grows terms.old terms.new }
{
    let action = program.actions.get(action as usize);
    guard_of(
        alloc,
        terms,
        program,
        action,
        globals.as_slice(),
        inputs.as_slice(),
        choices.as_slice(),
    )
}

/// The terms of the values that the action with this number offers for its choices, one for each in their order, at these
/// terms for the globals and for its parameters.
///
/// The program keeps the rules E10 to E24, and the terms have the sorts of the globals and of the parameters. The graph's
/// weight rises by at most that of the offers.
///
/// # Errors
///
/// For want of memory; the nodes before stay.
pub fn offers(
    alloc: Alloc,
    terms: &mut Terms,
    program: &Program,
    action: u32,
    globals: &List<Id>,
    inputs: &List<Id>,
) -> Result<List<Id>, Memory>
    requires rules { Keeps typing_rules program.now }
    requires action { action < length program.now.actions }
    requires globals { AreOf terms.old globals.now (map (λ g. g.sort) program.now.globals) }
    requires inputs { IfSome (slice_get program.now.actions action) (λ a. AreOf terms.old inputs.now (map (λ p. p.sort) a.params)) }
    ensures offers { IfOk result (λ ids. IfSome (slice_get program.now.actions action) (λ a. AreOffers terms.old terms.new program.now a globals.now inputs.now ids)) }
    ensures weighs { OnOk result (IfSome (slice_get program.now.actions action) (λ a. graph_weight terms.new ≤ graph_weight terms.old + offers_weight program.now a)) }
    ensures grows { Grows terms.old terms.new }
{
    let action = program.actions.get(action as usize);
    offers_of(
        alloc,
        terms,
        program,
        action,
        globals.as_slice(),
        inputs.as_slice(),
    )
}

/// The terms of the globals and of the outputs after the updates of the action with this number, which are all made at once,
/// at these terms for the globals, for its parameters and for its choices.
///
/// The program keeps the rules E10 to E24, and the terms have the sorts of the globals, the parameters and the choices. The
/// graph's weight rises by at most that of the updates. Globals that aren't updated keep their terms.
///
/// # Errors
///
/// For want of memory; the nodes before stay.
pub fn updates(
    alloc: Alloc,
    terms: &mut Terms,
    program: &Program,
    action: u32,
    globals: &List<Id>,
    inputs: &List<Id>,
    choices: &List<Id>,
) -> Result<Changed, Memory>
    requires rules { Keeps typing_rules program.now }
    requires action { action < length program.now.actions }
    requires globals { AreOf terms.old globals.now (map (λ g. g.sort) program.now.globals) }
    requires inputs { IfSome (slice_get program.now.actions action) (λ a. AreOf terms.old inputs.now (map (λ p. p.sort) a.params)) }
    requires choices { IfSome (slice_get program.now.actions action) (λ a. AreOf terms.old choices.now (map (λ c. c.sort) a.choices)) }
    ensures change { IfOk result (λ c. IfSome (slice_get program.now.actions action) (λ a. IsChange terms.old terms.new program.now a globals.now inputs.now choices.now c.globals c.outs)) }
    ensures others { IfOk result (λ c. IfSome (slice_get program.now.actions action) (λ a. LeavesOthers (global_names program.now.globals) (targets_of a) globals.now c.globals)) }
    ensures weighs { OnOk result (IfSome (slice_get program.now.actions action) (λ a. graph_weight terms.new ≤ graph_weight terms.old + updates_weight program.now a)) }
    ensures grows { Grows terms.old terms.new }
{
    let action = program.actions.get(action as usize);
    updates_of(
        alloc,
        terms,
        program,
        action,
        globals.as_slice(),
        inputs.as_slice(),
        choices.as_slice(),
    )
}

/// The terms of this action.
#[tactic(auto, using(crate::proofs::Staying::staying))]
fn instance_of(
    alloc: Alloc,
    terms: &mut Terms,
    program: &Program,
    action: &Action,
    globals: &[Id],
    inputs: &[Id],
    choices: &[Id],
) -> Result<Instance, Memory>
    requires rules { Keeps typing_rules program.now }
    requires action { IsActionOf program.now action.now }
    requires globals { AreOf terms.old globals.now (map (λ g. g.sort) program.now.globals) }
    requires inputs { AreOf terms.old inputs.now (map (λ p. p.sort) action.now.params) }
    requires choices { AreOf terms.old choices.now (map (λ c. c.sort) action.now.choices) }
    ensures made { IfOk result (λ i. IsInstance terms.old terms.new program.now action.now globals.now inputs.now choices.now i) }
    ensures others { IfOk result (λ i. LeavesOthers (global_names program.now.globals) (targets_of action.now) globals.now i.globals) }
    ensures weighs { OnOk result (graph_weight terms.new ≤ graph_weight terms.old + action_weight program.now action.now) }
    ensures grows { Grows terms.old terms.new }
{
    let gate = gate_of(alloc, terms, program, action, globals, inputs)?;
    let guard = guard_of(alloc, terms, program, action, globals, inputs, choices)?;
    let changed = updates_of(alloc, terms, program, action, globals, inputs, choices)?;
    Ok(Instance {
        gate,
        guard,
        globals: changed.globals,
        outs: changed.outs,
    })
}

/// The terms of the action with this number, at these terms for the globals, for its parameters and for its choices.
///
/// The program keeps the rules E10 to E24, and the terms have the sorts of the globals, the parameters and the choices. The
/// graph's weight rises by at most that of the gate, the guard and the updates. Globals that aren't updated keep their terms.
///
/// # Errors
///
/// For want of memory; the nodes before stay.
pub fn instance(
    alloc: Alloc,
    terms: &mut Terms,
    program: &Program,
    action: u32,
    globals: &List<Id>,
    inputs: &List<Id>,
    choices: &List<Id>,
) -> Result<Instance, Memory>
    requires rules { Keeps typing_rules program.now }
    requires action { action < length program.now.actions }
    requires globals { AreOf terms.old globals.now (map (λ g. g.sort) program.now.globals) }
    requires inputs { IfSome (slice_get program.now.actions action) (λ a. AreOf terms.old inputs.now (map (λ p. p.sort) a.params)) }
    requires choices { IfSome (slice_get program.now.actions action) (λ a. AreOf terms.old choices.now (map (λ c. c.sort) a.choices)) }
    ensures made { IfOk result (λ i. IfSome (slice_get program.now.actions action) (λ a. IsInstance terms.old terms.new program.now a globals.now inputs.now choices.now i)) }
    ensures others { IfOk result (λ i. IfSome (slice_get program.now.actions action) (λ a. LeavesOthers (global_names program.now.globals) (targets_of a) globals.now i.globals)) }
    ensures weighs { OnOk result (IfSome (slice_get program.now.actions action) (λ a. graph_weight terms.new ≤ graph_weight terms.old + action_weight program.now a)) }
    ensures grows { Grows terms.old terms.new }
{
    let action = program.actions.get(action as usize);
    instance_of(
        alloc,
        terms,
        program,
        action,
        globals.as_slice(),
        inputs.as_slice(),
        choices.as_slice(),
    )
}
