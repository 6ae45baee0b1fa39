// The terms of the parts of an action.
ghost use Rattle.std.specs.Prelude.{◌≡◌, ◌+◌, ◌≤◌, length, map, slice_set, IfOk, OnOk};
ghost use Rattle.civl_tree.specs.rules.Rules.{Keeps};
ghost use Rattle.civl_tree.specs.rules.Typing.{typing_rules};
ghost use Rattle.civl_tree.specs.rules.Names.{global_names, targets_of};
ghost use Rattle.civl_tree.specs.rules.Scopes.{gate_scope, guard_scope};
ghost use Rattle.civl_firing.specs.values.ActionWeights.{gate_weight, guard_weight, offers_weight, updates_weight};
ghost use Rattle.civl_terms.specs.Building.{Grows};
ghost use Rattle.civl_terms.specs.Weights.{graph_weight};
ghost use Rattle.civl_actions.specs.Scopes.{AreOf, ScopeFits};
ghost use Rattle.civl_actions.specs.Actions.{IsGate, IsGuard, AreOffers, IsChange, LeavesOthers};
ghost use Rattle.civl_actions.specs.inner.Steps.{IsActionOf, AreOffered, AreUpdated};

use crate::expressions::term;
use crate::made::Changed;
use crate::named::{named_terms, scope_of};
use crate::scope::Scope;
use civl_firing::firing::{global_targets, out_targets};
use civl_firing::names::place;
use civl_terms::{Id, Memory, Terms};
use civl_tree::{Action, List, Program};
use std::alloc::Global as Alloc;

/// Puts a term at a place, if there is one.
fn write(ids: &mut Vec<Id>, at: usize, id: Id)
    ensures { ids.new.items ≡ slice_set ids.old.items at id }
{
    if at < ids.len() {
        ids[at] = id;
    }
}

/// Puts the terms of updates, which are all taken in one scope, in the place of their targets.
fn update(
    terms: &mut Terms,
    scope: &Scope<'_>,
    program: &Program,
    action: &Action,
    globals: &mut Vec<Id>,
    outs: &mut Vec<Id>,
) -> Result<(), Memory>
    requires rules { Keeps typing_rules program.now }
    requires action { IsActionOf program.now action.now }
    requires scope { ScopeFits terms.old scope.now (guard_scope program.now action.now) }
    requires globals { AreOf terms.old globals.old.items (map (λ g. g.sort) program.now.globals) }
    requires outs { AreOf terms.old outs.old.items (map (λ p. p.sort) action.now.outs) }
    ensures updated { OnOk result (AreUpdated terms.old terms.new scope.now program.now action.now (length action.now.updates) globals.old.items outs.old.items globals.new.items outs.new.items) }
    ensures others { OnOk result (LeavesOthers (global_names program.now.globals) (targets_of action.now) globals.old.items globals.new.items) }
    ensures grows { Grows terms.old terms.new }
{
    for one in action.updates.as_slice() {
        let id = term(&one.expr, scope, terms)?;
        write(
            globals,
            place(&global_targets(program.globals.as_slice()), &one.target),
            id,
        );
        write(
            outs,
            place(&out_targets(action.outs.as_slice()), &one.target),
            id,
        );
    }
    Ok(())
}

/// The terms of the offers, in the order of the choices.
fn offered(
    alloc: Alloc,
    terms: &mut Terms,
    scope: &Scope<'_>,
    program: &Program,
    action: &Action,
) -> Result<Vec<Id>, Memory>
    requires rules { Keeps typing_rules program.now }
    requires action { IsActionOf program.now action.now }
    requires scope { ScopeFits terms.old scope.now (gate_scope program.now action.now) }
    ensures offered { IfOk result (λ ids. AreOffered terms.old terms.new scope.now (gate_scope program.now action.now) action.now.choices ids.items) }
    ensures grows { Grows terms.old terms.new }
{
    let mut ids = Vec::new(alloc);
    for choice in action.choices.as_slice() {
        let id = term(&choice.offer, scope, terms)?;
        ids.push(id)?;
    }
    Ok(ids)
}

/// The term of the gate of this action.
#[tactic(auto, using(civl_terms::proofs::Growing::growth))]
pub fn gate_of(
    alloc: Alloc,
    terms: &mut Terms,
    program: &Program,
    action: &Action,
    globals: &[Id],
    inputs: &[Id],
) -> Result<Id, Memory>
    requires rules { Keeps typing_rules program.now }
    requires action { IsActionOf program.now action.now }
    requires globals { AreOf terms.old globals.now (map (λ g. g.sort) program.now.globals) }
    requires inputs { AreOf terms.old inputs.now (map (λ p. p.sort) action.now.params) }
    ensures gate { IfOk result (λ id. IsGate terms.old terms.new program.now action.now globals.now inputs.now id) }
    ensures weighs { OnOk result (graph_weight terms.new ≤ graph_weight terms.old + gate_weight program.now action.now) }
    ensures grows { Grows terms.old terms.new }
{
    let named = named_terms(alloc, terms, &action.outs, globals, inputs, &[])?;
    let scope = scope_of(program, action, &[], &named);
    let id = term(&action.gate, &scope, terms)?;
    let _count = terms.len();
    Ok(id)
}

/// The term of the guard of this action.
#[tactic(auto, using(civl_terms::proofs::Growing::growth))]
pub fn guard_of(
    alloc: Alloc,
    terms: &mut Terms,
    program: &Program,
    action: &Action,
    globals: &[Id],
    inputs: &[Id],
    choices: &[Id],
) -> Result<Id, Memory>
    requires rules { Keeps typing_rules program.now }
    requires action { IsActionOf program.now action.now }
    requires globals { AreOf terms.old globals.now (map (λ g. g.sort) program.now.globals) }
    requires inputs { AreOf terms.old inputs.now (map (λ p. p.sort) action.now.params) }
    requires choices { AreOf terms.old choices.now (map (λ c. c.sort) action.now.choices) }
    ensures guard { IfOk result (λ id. IsGuard terms.old terms.new program.now action.now globals.now inputs.now choices.now id) }
    ensures weighs { OnOk result (graph_weight terms.new ≤ graph_weight terms.old + guard_weight program.now action.now) }
    ensures grows { Grows terms.old terms.new }
{
    let named = named_terms(alloc, terms, &action.outs, globals, inputs, choices)?;
    let scope = scope_of(program, action, action.choices.as_slice(), &named);
    let id = term(&action.guard, &scope, terms)?;
    let _count = terms.len();
    Ok(id)
}

/// The terms of the offers of this action.
#[tactic(auto, using(civl_terms::proofs::Growing::growth))]
pub fn offers_of(
    alloc: Alloc,
    terms: &mut Terms,
    program: &Program,
    action: &Action,
    globals: &[Id],
    inputs: &[Id],
) -> Result<List<Id>, Memory>
    requires rules { Keeps typing_rules program.now }
    requires action { IsActionOf program.now action.now }
    requires globals { AreOf terms.old globals.now (map (λ g. g.sort) program.now.globals) }
    requires inputs { AreOf terms.old inputs.now (map (λ p. p.sort) action.now.params) }
    ensures offers { IfOk result (λ ids. AreOffers terms.old terms.new program.now action.now globals.now inputs.now ids) }
    ensures weighs { OnOk result (graph_weight terms.new ≤ graph_weight terms.old + offers_weight program.now action.now) }
    ensures grows { Grows terms.old terms.new }
{
    let named = named_terms(alloc, terms, &action.outs, globals, inputs, &[])?;
    let scope = scope_of(program, action, &[], &named);
    let ids = offered(alloc, terms, &scope, program, action)?;
    Ok(List::from_vec(ids))
}

/// The terms of what the updates of this action give.
#[tactic(auto, using(civl_terms::proofs::Growing::growth))]
pub fn updates_of(
    alloc: Alloc,
    terms: &mut Terms,
    program: &Program,
    action: &Action,
    globals: &[Id],
    inputs: &[Id],
    choices: &[Id],
) -> Result<Changed, Memory>
    requires rules { Keeps typing_rules program.now }
    requires action { IsActionOf program.now action.now }
    requires globals { AreOf terms.old globals.now (map (λ g. g.sort) program.now.globals) }
    requires inputs { AreOf terms.old inputs.now (map (λ p. p.sort) action.now.params) }
    requires choices { AreOf terms.old choices.now (map (λ c. c.sort) action.now.choices) }
    ensures change { IfOk result (λ c. IsChange terms.old terms.new program.now action.now globals.now inputs.now choices.now c.globals c.outs) }
    ensures others { IfOk result (λ c. LeavesOthers (global_names program.now.globals) (targets_of action.now) globals.now c.globals) }
    ensures weighs { OnOk result (graph_weight terms.new ≤ graph_weight terms.old + updates_weight program.now action.now) }
    ensures grows { Grows terms.old terms.new }
{
    let named = named_terms(alloc, terms, &action.outs, globals, inputs, choices)?;
    let scope = scope_of(program, action, action.choices.as_slice(), &named);
    let mut after = Vec::from_slice(alloc, globals)?;
    let mut outs = Vec::from_slice(alloc, named.zeros.as_slice())?;
    update(terms, &scope, program, action, &mut after, &mut outs)?;
    Ok(Changed {
        globals: List::from_vec(after),
        outs: List::from_vec(outs),
    })
}
