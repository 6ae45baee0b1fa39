// The violations of the conditions on actions, as terms over their variables.
ghost use Rattle.std.specs.Prelude.{◌≡◌, ◌+◌, ◌*◌, ◌≤◌, ◌<◌, length, slice_get, Some, IfOk, OnOk};
ghost use Rattle.civl_tree.specs.declared.expr.Sort.TheVariants.{Bool as Truth};
ghost use Rattle.civl_tree.specs.declared.action.Action.{Action};
ghost use Rattle.civl_tree.specs.rules.Rules.{Keeps};
ghost use Rattle.civl_tree.specs.rules.Typing.{typing_rules};
ghost use Rattle.civl_terms.specs.Graphs.{sort_at};
ghost use Rattle.civl_terms.specs.Building.{Grows, Lengthens};
ghost use Rattle.civl_terms.specs.Weights.{graph_weight};
ghost use Rattle.civl_conditions.specs.declared.condition.Condition.TheVariants.{Keep, Pair, Fire};
ghost use Rattle.civl_conditions.specs.Movers as says;
ghost use Rattle.civl_conditions.specs.Weights.{lin, linear_globals, linear_inputs, weight};
ghost use Rattle.civl_states.specs.formula_parts.Given.{AreVariablesOf};
ghost use Rattle.civl_states.specs.Stores.{AreGlobals};
ghost use Rattle.civl_states.specs.Runs.{IsReady};
ghost use Rattle.civl_states.specs.Formulas.{sorts_of, IsViolation};
ghost use Rattle.civl_movers.specs.Runs.{TellsTwo};
ghost use Rattle.civl_movers.specs.Settings.{IsOfActions, HaveOutModes, kind_fails, kind_weight};

use crate::exchange::clashes;
use crate::firing::waits;
use crate::items::{apart_items, loses};
use crate::pairs::{reveals, spoils};
use crate::settings::{Pairing, count_lower, lower, paired};
use civl_bits::Value;
use civl_conditions::Condition;
use civl_layers::{Layered, program};
use civl_states::formula_parts::{both, variables};
use civl_states::{invocation, store};
use civl_terms::{Id, Memory, Terms};
use civl_tree::{Program, Sort};
use std::alloc::Global as Alloc;

/// K2: permissions are lost or made.
fn keep_fails(
    alloc: Alloc,
    terms: &mut Terms,
    program: &Program,
    sorts: &[Sort],
    step: u32,
    action: u32,
) -> Result<Id, Memory>
    requires rules { Keeps typing_rules program.now }
    requires action { action < length program.now.actions }
    requires sorts { sorts.now ≡ sorts_of program.now (Keep step action) }
    requires variables { AreVariablesOf terms.old sorts.now }
    ensures says { IfOk result (λ id. IsViolation terms.new id program.now (Keep step action)) }
    ensures weighs { OnOk result (HaveOutModes program.now → graph_weight terms.new ≤ graph_weight terms.old + 4 * weight program.now (Keep step action)) }
    ensures lengthens { Lengthens terms.old terms.new }
{
    let globals = store(alloc, terms, program, sorts, lower(step), 0)?;
    let first = count_lower(program, step);
    let x = invocation(alloc, terms, program, sorts, action, first)?;
    let id = loses(alloc, terms, program, &globals, &x)?;
    Ok(id)
}

/// K8: the action doesn't fire with the choices that it offers.
fn fire_fails(
    alloc: Alloc,
    terms: &mut Terms,
    program: &Program,
    sorts: &[Sort],
    step: u32,
    action: u32,
) -> Result<Id, Memory>
    requires rules { Keeps typing_rules program.now }
    requires action { action < length program.now.actions }
    requires sorts { sorts.now ≡ sorts_of program.now (Fire step action) }
    requires variables { AreVariablesOf terms.old sorts.now }
    ensures says { IfOk result (λ id. IsViolation terms.new id program.now (Fire step action)) }
    ensures weighs { OnOk result (graph_weight terms.new ≤ graph_weight terms.old + 4 * weight program.now (Fire step action)) }
    ensures lengthens { Lengthens terms.old terms.new }
{
    let globals = store(alloc, terms, program, sorts, lower(step), 0)?;
    let first = count_lower(program, step);
    let count = program.actions.get(action as usize).params.len() as u32;
    let inputs = variables(alloc, terms, sorts, first, count)?;
    let id = waits(alloc, terms, program, &globals, action, &inputs)?;
    Ok(id)
}

/// What the condition with this number asks of two actions whose items are apart.
fn kind_fails(
    alloc: Alloc,
    terms: &mut Terms,
    program: &Program,
    number: u32,
    step: u32,
    pair: &Pairing,
) -> Result<Id, Memory>
    requires rules { Keeps typing_rules program.now }
    requires globals { AreGlobals terms.old program.now pair.now.globals }
    requires x { IsReady terms.old program.now pair.now.x }
    requires y { IsReady terms.old program.now pair.now.y }
    ensures tells { IfOk result (λ id. TellsTwo terms.old terms.new program.now pair.now.globals pair.now.x pair.now.y (kind_fails program.now number step) id) }
    ensures sorted { IfOk result (λ id. sort_at terms.new id ≡ Some Truth) }
    ensures weighs { OnOk result ((a b : Action) → slice_get program.now.actions pair.now.x.action ≡ Some a → slice_get program.now.actions pair.now.y.action ≡ Some b → graph_weight terms.new ≤ graph_weight terms.old + kind_weight program.now step a b) }
    ensures grows { Grows terms.old terms.new }
{
    let globals = &pair.globals;
    let x = &pair.x;
    let y = &pair.y;
    match number {
        3 => {
            let id = clashes(alloc, terms, program, step, globals, x, y)?;
            Ok(id)
        }
        4 => {
            let id = spoils(alloc, terms, program, globals, x, y)?;
            Ok(id)
        }
        5 => {
            let id = clashes(alloc, terms, program, step, globals, y, x)?;
            Ok(id)
        }
        6 => {
            let id = spoils(alloc, terms, program, globals, y, x)?;
            Ok(id)
        }
        7 => {
            let id = reveals(alloc, terms, program, globals, x, y)?;
            Ok(id)
        }
        _ => {
            let id = terms.constant(Value::Bool(false))?;
            Ok(id)
        }
    }
}

/// K3 to K7 at terms: the items of two actions are apart, and they fail what the condition asks.
fn pair_at(
    alloc: Alloc,
    terms: &mut Terms,
    program: &Program,
    number: u32,
    step: u32,
    pair: &Pairing,
) -> Result<Id, Memory>
    requires rules { Keeps typing_rules program.now }
    requires globals { AreGlobals terms.old program.now pair.now.globals }
    requires x { IsReady terms.old program.now pair.now.x }
    requires y { IsReady terms.old program.now pair.now.y }
    ensures tells { IfOk result (λ id. TellsTwo terms.old terms.new program.now pair.now.globals pair.now.x pair.now.y (says.pair_fails program.now number step) id) }
    ensures sorted { IfOk result (λ id. sort_at terms.new id ≡ Some Truth) }
    ensures weighs { OnOk result ((a b : Action) → slice_get program.now.actions pair.now.x.action ≡ Some a → slice_get program.now.actions pair.now.y.action ≡ Some b → graph_weight terms.new ≤ graph_weight terms.old + kind_weight program.now step a b + 4 * lin program.now (linear_globals program.now + linear_inputs a.params + linear_inputs b.params) + 1) }
    ensures grows { Grows terms.old terms.new }
{
    let apart = apart_items(alloc, terms, program, &pair.globals, &pair.x, &pair.y)?;
    let fails = kind_fails(alloc, terms, program, number, step, pair)?;
    let id = both(terms, apart, fails)?;
    Ok(id)
}

/// K3 to K7: two actions may not be exchanged, or one changes the gate of the other.
fn pair_fails(
    alloc: Alloc,
    terms: &mut Terms,
    program: &Program,
    sorts: &[Sort],
    number: u32,
    step: u32,
    x: u32,
    y: u32,
) -> Result<Id, Memory>
    requires rules { Keeps typing_rules program.now }
    requires x { x < length program.now.actions }
    requires y { y < length program.now.actions }
    requires sorts { sorts.now ≡ sorts_of program.now (Pair number step x y) }
    requires variables { AreVariablesOf terms.old sorts.now }
    ensures says { IfOk result (λ id. IsViolation terms.new id program.now (Pair number step x y)) }
    ensures weighs { OnOk result (graph_weight terms.new ≤ graph_weight terms.old + 4 * weight program.now (Pair number step x y)) }
    ensures lengthens { Lengthens terms.old terms.new }
{
    let found = paired(alloc, terms, program, sorts, number, step, x, y)?;
    let id = pair_at(alloc, terms, program, number, step, &found)?;
    Ok(id)
}

/// The term of the formula that values violate a condition on actions, K2 to K8. The graph's variables are those of the condition.
///
/// The condition is of this kind, and its actions are there. The graph's weight rises by at most four times the condition's.
///
/// # Errors
///
/// For want of memory; the nodes before stay.
pub fn violation(
    alloc: Alloc,
    terms: &mut Terms,
    src: &Layered,
    sorts: &[Sort],
    condition: &Condition,
) -> Result<Id, Memory>
    requires kind { IsOfActions src.now condition.now }
    requires sorts { sorts.now ≡ sorts_of src.now condition.now }
    requires variables { AreVariablesOf terms.old (sorts_of src.now condition.now) }
    ensures says { IfOk result (λ id. IsViolation terms.new id src.now condition.now) }
    ensures weighs { OnOk result (HaveOutModes src.now → graph_weight terms.new ≤ graph_weight terms.old + 4 * weight src.now condition.now) }
    ensures lengthens { Lengthens terms.old terms.new }
{
    let program = program(src);
    match *condition {
        Condition::Keep(step, action) => keep_fails(alloc, terms, program, sorts, step, action),
        Condition::Pair(number, step, x, y) => {
            pair_fails(alloc, terms, program, sorts, number, step, x, y)
        }
        Condition::Fire(step, action) => fire_fails(alloc, terms, program, sorts, step, action),
        _ => unreachable!(),
    }
}
