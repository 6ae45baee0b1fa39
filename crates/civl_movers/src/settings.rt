// The variables of a condition on two actions, as terms.
ghost use Rattle.std.specs.Prelude.{◌≡◌, ◌+◌, ◌-◌, ◌≤◌, ◌<◌, length, slice_get, Some, IfOk, OnOk};
ghost use Rattle.civl_tree.specs.declared.action.Action.{Action};
ghost use Rattle.civl_tree.specs.rules.Rules.{Keeps};
ghost use Rattle.civl_tree.specs.rules.Typing.{typing_rules};
ghost use Rattle.civl_terms.specs.Building.{Lengthens};
ghost use Rattle.civl_terms.specs.Weights.{graph_weight};
ghost use Rattle.civl_conditions.specs.declared.condition.Condition.TheVariants.{Pair};
ghost use Rattle.civl_conditions.specs.Values.{instance_count};
ghost use Rattle.civl_states.specs.formula_parts.Given.{bits_of_sorts, AreVariablesOf};
ghost use Rattle.civl_states.specs.declared.stores.Existing.TheVariants.{Layer};
ghost use Rattle.civl_states.specs.Formulas.{sorts_of};
ghost use Rattle.civl_movers.specs.Settings.{lower_count, IsPairing};

use civl_states::{Existing, Invoked, existing_count, invocation, store};
use civl_terms::{Id, Memory, Terms};
use civl_tree::{List, Program, Sort};
use std::alloc::Global as Alloc;

/// The globals of the lower layer of a step, as a condition's variables.
pub(crate) fn lower(step: u32) -> Existing
    ensures { result ≡ Layer (step - 1) }
{
    Existing::Layer(step.saturating_sub(1))
}

/// How many globals the lower layer of a step has: the number of the first variable behind them.
pub(crate) fn count_lower(program: &Program, step: u32) -> u32
    requires { Keeps typing_rules program.now }
    ensures { result ≡ lower_count program.now step }
{
    existing_count(program, lower(step)) as u32
}

/// How many parameters and choices an action has.
fn count_instance(program: &Program, action: u32) -> u32
    requires rules { Keeps typing_rules program.now }
    requires action { action < length program.now.actions }
    ensures { (a : Action) → slice_get program.now.actions action ≡ Some a → result ≡ instance_count a }
{
    let found = program.actions.get(action as usize);
    (found.params.len() + found.choices.len()) as u32
}

/// Two actions and the globals of the layer in which they run, all as variables: the globals come first, and then the parameters
/// and choices of the one and of the other.
#[derive(Drop)]
pub(crate) struct Pairing {
    pub globals: List<Id>,
    pub x: Invoked,
    pub y: Invoked,
}

/// The variables of a condition on two actions. The graph's weight rises by at most their bits.
pub(crate) fn paired(
    alloc: Alloc,
    terms: &mut Terms,
    program: &Program,
    sorts: &[Sort],
    number: u32,
    step: u32,
    x: u32,
    y: u32,
) -> Result<Pairing, Memory>
    requires rules { Keeps typing_rules program.now }
    requires x { x < length program.now.actions }
    requires y { y < length program.now.actions }
    requires sorts { sorts.now ≡ sorts_of program.now (Pair number step x y) }
    requires variables { AreVariablesOf terms.old sorts.now }
    ensures is { IfOk result (λ p. IsPairing terms.new program.now step x y p) }
    ensures variables { AreVariablesOf terms.new sorts.now }
    ensures weighs { OnOk result (graph_weight terms.new ≤ graph_weight terms.old + bits_of_sorts sorts.now) }
    ensures lengthens { Lengthens terms.old terms.new }
{
    let globals = store(alloc, terms, program, sorts, lower(step), 0)?;
    let first = count_lower(program, step);
    let second = first + count_instance(program, x);
    let x = invocation(alloc, terms, program, sorts, x, first)?;
    let y = invocation(alloc, terms, program, sorts, y, second)?;
    Ok(Pairing { globals, x, y })
}
