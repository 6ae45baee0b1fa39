// What is worked out of each action, once.
ghost use Rattle.std.specs.Prelude.{IfOk};
ghost use Rattle.std.specs.List.{AllZip};
ghost use Rattle.civl_tree.specs.rules.Names.{action_named};
ghost use Rattle.civl_types.specs.Views.{scope_of};
ghost use Rattle.civl_firing.specs.values.ActionWeights.{update_weights, offer_weights};
ghost use Rattle.civl_meaning.specs.Meaning.{called, refined};
ghost use Rattle.civl_meaning.specs.Layers.{program_at};
ghost use Rattle.civl_conditions.specs.paths.Choices.{action_meant};
ghost use Rattle.civl_conditions.specs.Passed.{refined_at};
ghost use Rattle.civl_weighing.specs.Weighing.{Weighs};
ghost use Rattle.civl_weights.specs.sums.Sums.{OfAction, IsWhole, OfMaybe};

use civl_tree::{Action, Choice, List, Memory, Name, Program, Refines, Update};
use civl_types::names::{proc_named, same_name};
use civl_types::view::View;
use civl_weighing::bits::{choices_bits, given, lent, linear_inputs, params_bits};
use civl_weighing::exprs::weight_of;
use civl_weighing::weight::Weight;
use std::alloc::Global;

/// The weights of an action's parts, its bits, and how many linear values it has.
#[derive(Clone, Copy)]
pub struct ActionSums {
    pub gate: Weight,
    pub guard: Weight,
    pub offers: Weight,
    pub updates: Weight,
    pub params: Weight,
    pub choices: Weight,
    pub outs: Weight,
    pub inputs: Weight,
    pub lent: Weight,
    pub given: Weight,
}

impl ActionSums {
    /// The weight of the gate, the guard and the updates.
    pub fn whole(&self) -> Weight
        ensures { IsWhole self.now result }
    {
        self.gate.plus(self.guard).plus(self.updates)
    }
}

fn updates_weight(view: &View, updates: &[Update]) -> Weight
    ensures { Weighs result (update_weights (scope_of view.now) updates.now) }
{
    let mut total = Weight::of(0);
    for update in updates {
        total = total.plus(weight_of(view, &update.expr));
    }
    total
}

fn offers_weight(view: &View, choices: &[Choice]) -> Weight
    ensures { Weighs result (offer_weights (scope_of view.now) choices.now) }
{
    let mut total = Weight::of(0);
    for choice in choices {
        total = total.plus(weight_of(view, &choice.offer));
    }
    total
}

fn sums_of(program: &Program, action: &Action) -> ActionSums
    ensures { OfAction program.now action.now result }
{
    let gate_view = View::Gate(program, action);
    let guard_view = View::Guard(program, action);
    let params = action.params.as_slice();
    let outs = action.outs.as_slice();
    let choices = action.choices.as_slice();
    ActionSums {
        gate: weight_of(&gate_view, &action.gate),
        guard: weight_of(&guard_view, &action.guard),
        offers: offers_weight(&gate_view, choices),
        updates: updates_weight(&guard_view, action.updates.as_slice()),
        params: params_bits(params),
        choices: choices_bits(choices),
        outs: params_bits(outs),
        inputs: linear_inputs(params),
        lent: lent(params),
        given: given(outs),
    }
}

/// The sums of each action.
///
/// # Errors
///
/// For want of memory.
pub fn action_sums(alloc: Global, program: &Program) -> Result<List<ActionSums>, Memory>
    ensures { IfOk result (AllZip (OfAction program.now) program.now.actions) }
{
    let actions = program.actions.as_slice();
    let mut sums = List::new(alloc);
    for action in actions {
        sums.push(sums_of(program, action))?;
    }
    Ok(sums)
}

/// The sums of the action of this name.
pub(crate) fn sums_named(program: &Program, sums: &[ActionSums], name: &Name) -> Option<ActionSums>
    requires { AllZip (OfAction program.now) program.now.actions sums.now }
    ensures { OfMaybe program.now (action_named program.now name.now) result }
{
    let actions = program.actions.as_slice();
    for (at, action) in actions.iter().enumerate() {
        if same_name(name, &action.name) {
            return sums.get(at).copied();
        }
    }
    None
}

/// The sums of the action that a procedure refines.
pub(crate) fn sums_refined(
    program: &Program,
    sums: &[ActionSums],
    refines: &Option<Refines>,
) -> Option<ActionSums>
    requires { AllZip (OfAction program.now) program.now.actions sums.now }
    ensures { OfMaybe program.now (action_meant (refined program.now refines.now)) result }
{
    match refines {
        Some(refines) => sums_named(program, sums, &refines.action),
        None => None,
    }
}

/// The sums of the action that a procedure means in the program of a layer.
fn sums_refined_at(
    program: &Program,
    sums: &[ActionSums],
    layer: u32,
    refines: &Option<Refines>,
) -> Option<ActionSums>
    requires { AllZip (OfAction program.now) program.now.actions sums.now }
    ensures { OfMaybe program.now (refined_at program.now layer refines.now) result }
{
    match refines {
        Some(refines) => {
            if layer < refines.layer {
                return None;
            }
            sums_named(program, sums, &refines.action)
        }
        None => None,
    }
}

/// The sums of the action that a call of this name means in the program of a layer.
pub(crate) fn sums_called(
    program: &Program,
    sums: &[ActionSums],
    layer: u32,
    name: &Name,
) -> Option<ActionSums>
    requires { AllZip (OfAction program.now) program.now.actions sums.now }
    ensures { OfMaybe program.now (action_meant (called (program_at program.now layer) name.now)) result }
{
    match sums_named(program, sums, name) {
        Some(found) => Some(found),
        None => match proc_named(program, name) {
            Some(proc) => sums_refined_at(program, sums, layer, &proc.refines),
            None => None,
        },
    }
}
