// Calls at terms.
ghost use Rattle.std.specs.Prelude.{◌≡◌, ◌≤◌, ◌+◌, ◌<◌, ◌^◌, ℕ, List as ListOf, length, Some, IfOk, IfSome, OnOk};
ghost use Rattle.std.specs.Option.{option_map_or};
ghost use Rattle.civl_bits.specs.declared.value.Value.{Value};
ghost use Rattle.civl_tree.specs.declared.action.Action.{Action};
ghost use Rattle.civl_tree.specs.declared.stmt.Stmt.TheOpen.{Call};
ghost use Rattle.civl_tree.specs.rules.Names.{action_named};
ghost use Rattle.civl_tree.specs.rules.Rules.{Keeps};
ghost use Rattle.civl_linear.specs.LinearRules.{linear_rules};
ghost use Rattle.civl_firing.specs.values.ActionWeights.{action_weight};
ghost use Rattle.civl_conditions.specs.Passed.{refined_at};
ghost use Rattle.civl_conditions.specs.Weights.{body_weight, layer_written, weights_of};
ghost use Rattle.civl_terms.specs.Building.{Grows};
ghost use Rattle.civl_terms.specs.Graphs.{Fits};
ghost use Rattle.civl_terms.specs.Weights.{graph_weight};
ghost use Rattle.civl_actions.specs.Actions.{values_at};
ghost use Rattle.civl_actions.specs.Scopes.{AreOf};
ghost use Rattle.civl_meaning.specs.Layers.{program_at};
ghost use Rattle.civl_meaning.specs.Meaning.{called};
ghost use Rattle.civl_conditions.specs.paths.Choices.{action_meant};
ghost use Rattle.civl_states.specs.Notes.{IsProcIn};
ghost use Rattle.civl_moves.specs.sweeps.Sweeps.{with_call};
ghost use Rattle.civl_layers.specs.Layered.{IsLayered};
ghost use Rattle.civl_states.specs.formula_parts.Said.{Env};
ghost use Rattle.civl_moves.specs.States.{CanSweep, Moves};
ghost use Rattle.civl_states.specs.Beginnings.{chosen_at};
ghost use Rattle.civl_meaning.specs.Config.{choice_sorts};
ghost use Rattle.civl_body.specs.Passing.{StandsCall, action_at, course_in};
ghost use Rattle.civl_body.specs.Weights.{Leaves};

use civl_firing::names::action as place_of_action;
use civl_moves::{Sweep, body_terms, halt, pass_action};
use civl_states::Choices;
use civl_terms::{Id, Memory, Terms};
use civl_tree::{Expr, List, Name, Proc, Program, Refines};
use civl_types::names::proc_named;
use std::alloc::Global as Alloc;

/// The number of the action of this name, if there is one.
fn number_named(program: &Program, name: &Name) -> Option<u32>
    requires { length program.now.actions < 2 ^ 32 }
    ensures is { action_at program.now result ≡ action_named program.now name.now }
    ensures within { IfSome result (λ n. n < length program.now.actions) }
{
    let at = place_of_action(program.actions.as_slice(), name);
    if at < program.actions.len() {
        return Some(at as u32);
    }
    None
}

/// The number of the action that a procedure means in the program of a layer, if it means one.
fn number_refined(program: &Program, layer: u32, refines: &Option<Refines>) -> Option<u32>
    requires { length program.now.actions < 2 ^ 32 }
    ensures is { action_at program.now result ≡ refined_at program.now layer refines.now }
    ensures within { IfSome result (λ n. n < length program.now.actions) }
{
    match refines {
        Some(refines) => {
            if layer < refines.layer {
                return None;
            }
            number_named(program, &refines.action)
        }
        None => None,
    }
}

/// The number of the action that a call of this name means in the program of a layer, if it means one.
pub fn number_meant(program: &Program, layer: u32, name: &Name) -> Option<u32>
    requires { length program.now.actions < 2 ^ 32 }
    ensures is { action_at program.now result ≡ action_meant (called (program_at program.now layer) name.now) }
    ensures within { IfSome result (λ n. n < length program.now.actions) }
{
    match number_named(program, name) {
        Some(number) => Some(number),
        None => match proc_named(program, name) {
            Some(proc) => number_refined(program, layer, &proc.refines),
            None => None,
        },
    }
}

/// The terms for the choices of the call with this number.
fn choices_at(alloc: Alloc, chosen: &Choices, number: u32) -> Result<List<Id>, Memory>
    ensures { IfOk result (λ ids. ids ≡ chosen_at chosen.now number) }
{
    let ids = Vec::from_slice(alloc, chosen.at(number))?;
    Ok(List::from_vec(ids))
}

/// A call.
pub fn pass_call(
    alloc: Alloc,
    terms: &mut Terms,
    program: &Program,
    layer: u32,
    proc: &Proc,
    chosen: &Choices,
    sweep: &mut Sweep,
    number: u32,
    callee: &Name,
    args: &List<Expr>,
    results: &List<Name>,
) -> Result<(), Memory>
    requires layered { IsLayered program.now }
    requires proc { IsProcIn program.now proc.now }
    requires stands { StandsCall proc.now number callee.now args.now results.now }
    requires can { CanSweep terms.old program.now proc.now sweep.old }
    requires choices { (a : Action) → action_meant (called (program_at program.now layer) callee.now) ≡ Some a → AreOf terms.old (chosen_at chosen.now number) (choice_sorts a) }
    ensures moves { OnOk result ((v : Env → ℕ → ListOf Value) → ((a : Action) → action_meant (called (program_at program.now layer) callee.now) ≡ Some a → (env : Env) → Fits env terms.old → values_at env terms.old (chosen_at chosen.now number) ≡ v env number) → Moves terms.old terms.new program.now proc.now sweep.old sweep.new (λ env. with_call (course_in program.now layer proc.now (v env)) callee.now args.now results.now number)) }
    ensures leaves { OnOk result (Keeps linear_rules program.now → Leaves program.now proc.now (layer_written (program_at program.now layer) (Call callee.now args.now results.now)) sweep.old sweep.new) }
    ensures weighs { OnOk result (graph_weight terms.new ≤ graph_weight terms.old + weights_of (body_weight program.now proc.now) args.now + option_map_or (action_weight program.now) (action_meant (called (program_at program.now layer) callee.now)) 0 + 4) }
    ensures grows { Grows terms.old terms.new }
{
    match number_meant(program, layer, callee) {
        Some(action) => {
            let inputs = body_terms(
                alloc,
                terms,
                program,
                proc,
                sweep.locals.as_slice(),
                args.as_slice(),
            )?;
            let choices = choices_at(alloc, chosen, number)?;
            pass_action(
                alloc,
                terms,
                program,
                proc,
                sweep,
                action,
                &inputs,
                &choices,
                results.as_slice(),
            )?;
            Ok(())
        }
        None => {
            halt(terms, sweep)?;
            Ok(())
        }
    }
}
