// An action at terms, and one whose parameters and choices are variables.
ghost use Rattle.std.specs.Prelude.{◌≡◌, ◌+◌, ◌≤◌, ◌<◌, ◌^◌, length, slice_get, All, IsTrue, Some, IfOk, OnOk};
ghost use Rattle.civl_tree.specs.declared.action.Action.{Action};
ghost use Rattle.civl_tree.specs.rules.Rules.{Keeps};
ghost use Rattle.civl_tree.specs.rules.Typing.{typing_rules};
ghost use Rattle.civl_firing.specs.values.Values.{is_sort};
ghost use Rattle.civl_terms.specs.Building.{Lengthens};
ghost use Rattle.civl_terms.specs.Weights.{graph_weight};
ghost use Rattle.civl_states.specs.formula_parts.Given.{given, bits_of_sorts, AreVariablesOf};
ghost use Rattle.civl_states.specs.Runs.{IsReady, IsInvoked, instance_sorts};
ghost use Rattle.civl_states.specs.Groups.{StandFrom};

use crate::formula_parts::variables;
use civl_terms::{Id, Memory, Terms};
use civl_tree::{List, Program, Sort};
use std::alloc::Global as Alloc;

/// The number of an action, with terms for its parameters and its choices.
#[derive(Drop)]
pub struct Invoked {
    pub action: u32,
    pub inputs: List<Id>,
    pub choices: List<Id>,
}

/// An action whose parameters and choices are variables, numbered from this number on. The sorts are those of all variables of
/// the formula, in their order.
///
/// The graph's weight rises by at most their bits.
///
/// # Errors
///
/// For want of memory; the nodes before stay.
pub fn invocation(
    alloc: Alloc,
    terms: &mut Terms,
    program: &Program,
    sorts: &[Sort],
    action: u32,
    first: u32,
) -> Result<Invoked, Memory>
    requires rules { Keeps typing_rules program.now }
    requires action { action < length program.now.actions }
    requires stand { (a : Action) → slice_get program.now.actions action ≡ Some a → StandFrom sorts.now first (instance_sorts a) }
    requires small { length sorts.now < 2 ^ 32 }
    requires limits { All (λ s. IsTrue (is_sort s)) sorts.now }
    requires variables { AreVariablesOf terms.old sorts.now }
    ensures invoked { IfOk result (λ x. (a : Action) → slice_get program.now.actions action ≡ Some a → IsInvoked terms.new program.now x a (λ env. given env first (length a.params)) (λ env. given env (first + length a.params) (length a.choices))) }
    ensures ready { IfOk result (λ x. IsReady terms.new program.now x) }
    ensures is { IfOk result (λ x. x.action ≡ action) }
    ensures variables { AreVariablesOf terms.new sorts.now }
    ensures weighs { OnOk result ((a : Action) → slice_get program.now.actions action ≡ Some a → graph_weight terms.new ≤ graph_weight terms.old + bits_of_sorts (instance_sorts a)) }
    ensures lengthens { Lengthens terms.old terms.new }
{
    let found = program.actions.get(action as usize);
    let params = found.params.len() as u32;
    let choices = found.choices.len() as u32;
    let inputs = variables(alloc, terms, sorts, first, params)?;
    let choices = variables(alloc, terms, sorts, first + params, choices)?;
    Ok(Invoked {
        action,
        inputs,
        choices,
    })
}
