// What values violate a condition on actions by.
ghost use Rattle.std.specs.Prelude.{◌≡◌, ◌-◌, ◌+◌, IfOk, None};
ghost use Rattle.civl_linear.specs.Cuts.{all_held};
ghost use Rattle.civl_conditions.specs.footprints.Agreement.{exists_at};
ghost use Rattle.civl_conditions.specs.paths.Seen.{exists_near};
ghost use Rattle.civl_conditions.specs.Steps.{of_action};
ghost use Rattle.civl_conditions.specs.Values.{invoked, store_of, count_of, instance_count};
ghost use Rattle.civl_clashes.specs.Told.{start_violation, keep_violation, apart_violation, fire_violation, act_violation, violation};

use crate::call::{behind_call, call_of, copied};
use crate::losing::keep_violation;
use crate::pairs::apart_violation;
use crate::starting::start_violation;
use crate::straying::{Aim, act_violation};
use crate::violations::Violation;
use crate::waiting::fire_violation;
use civl_assumed::stores::{Among, behind_globals, store_of};
use civl_bits::Value;
use civl_conditions::{Condition, Target};
use civl_firing::Store;
use civl_layers::{Held, Layered, program};
use civl_tree::{Action, Memory, Program};
use std::alloc::Global;

/// K3 to K7, of these two actions.
fn of_actions(
    alloc: Global,
    program: &Program,
    number: u32,
    step: u32,
    m: u32,
    first: &Action,
    n: u32,
    second: &Action,
    values: &[Value],
) -> Result<Option<Violation>, Memory>
    ensures { IfOk result (λ told. told ≡ apart_violation program.now number step
        (store_of (exists_at (step - 1)) program.now values.now) m
        (invoked values.now (count_of (exists_at (step - 1)) program.now) first.now) n
        (invoked values.now (count_of (exists_at (step - 1)) program.now + instance_count first.now) second.now)) }
{
    let layer = step.saturating_sub(1);
    let rest = behind_globals(Among::Layer(layer), program, values);
    let x = call_of(m, first, rest);
    let y = call_of(n, second, behind_call(first, rest));
    match store_of(alloc, Among::Layer(layer), program, values) {
        Ok(store) => apart_violation(alloc, program, number, step, store, &x, &y),
        Err(error) => Err(error),
    }
}

/// K3 to K7.
fn of_pair(
    alloc: Global,
    program: &Program,
    number: u32,
    step: u32,
    m: u32,
    n: u32,
    values: &[Value],
) -> Result<Option<Violation>, Memory>
    ensures { IfOk result (λ told. told ≡ of_action program.now m None
        (λ a. of_action program.now n None (λ b. apart_violation program.now number step
        (store_of (exists_at (step - 1)) program.now values.now) m
        (invoked values.now (count_of (exists_at (step - 1)) program.now) a) n
        (invoked values.now (count_of (exists_at (step - 1)) program.now + instance_count a) b)))) }
{
    match program.actions.as_slice().get(m as usize) {
        Some(first) => match program.actions.as_slice().get(n as usize) {
            Some(second) => of_actions(alloc, program, number, step, m, first, n, second, values),
            None => Ok(None),
        },
        None => Ok(None),
    }
}

/// K8, of this action.
fn of_action(
    alloc: Global,
    program: &Program,
    step: u32,
    m: u32,
    action: &Action,
    values: &[Value],
) -> Result<Option<Violation>, Memory>
    ensures { IfOk result (λ told. told ≡ fire_violation program.now (store_of (exists_at (step - 1)) program.now values.now) m
        (invoked values.now (count_of (exists_at (step - 1)) program.now) action.now)) }
{
    let layer = step.saturating_sub(1);
    let x = call_of(
        m,
        action,
        behind_globals(Among::Layer(layer), program, values),
    );
    match store_of(alloc, Among::Layer(layer), program, values) {
        Ok(store) => fire_violation(alloc, program, store, &x),
        Err(error) => Err(error),
    }
}

/// K8.
fn of_fire(
    alloc: Global,
    program: &Program,
    step: u32,
    m: u32,
    values: &[Value],
) -> Result<Option<Violation>, Memory>
    ensures { IfOk result (λ told. told ≡ of_action program.now m None (λ a. fire_violation program.now
        (store_of (exists_at (step - 1)) program.now values.now) m
        (invoked values.now (count_of (exists_at (step - 1)) program.now) a))) }
{
    match program.actions.as_slice().get(m as usize) {
        Some(action) => of_action(alloc, program, step, m, action, values),
        None => Ok(None),
    }
}

/// K2, of this action.
fn of_kept(
    alloc: Global,
    program: &Program,
    layer: u32,
    m: u32,
    action: &Action,
    values: &[Value],
) -> Result<Option<Violation>, Memory>
    ensures { IfOk result (λ told. told ≡ keep_violation program.now (store_of (exists_at layer) program.now values.now) m
        (invoked values.now (count_of (exists_at layer) program.now) action.now)) }
{
    let x = call_of(
        m,
        action,
        behind_globals(Among::Layer(layer), program, values),
    );
    match store_of(alloc, Among::Layer(layer), program, values) {
        Ok(store) => keep_violation(alloc, program, store, &x),
        Err(error) => Err(error),
    }
}

/// What these values violate K2 by, of the action with this number in the program of a layer, which is the lower one of the
/// condition's step; nothing where they don't violate it. They are values for the globals of the layer, the inputs and the choices.
///
/// # Errors
///
/// For want of memory.
pub fn linear_violation(
    alloc: Global,
    program: &Program,
    layer: u32,
    m: u32,
    values: &[Value],
) -> Result<Option<Violation>, Memory>
    ensures { IfOk result (λ told. told ≡ of_action program.now m None (λ a. keep_violation program.now
        (store_of (exists_at layer) program.now values.now) m
        (invoked values.now (count_of (exists_at layer) program.now) a))) }
{
    match program.actions.as_slice().get(m as usize) {
        Some(action) => of_kept(alloc, program, layer, m, action, values),
        None => Ok(None),
    }
}

/// K2.
fn of_keep(
    alloc: Global,
    program: &Program,
    step: u32,
    m: u32,
    values: &[Value],
) -> Result<Option<Violation>, Memory>
    ensures { IfOk result (λ told. told ≡ of_action program.now m None (λ a. keep_violation program.now
        (store_of (exists_at (step - 1)) program.now values.now) m
        (invoked values.now (count_of (exists_at (step - 1)) program.now) a))) }
{
    linear_violation(alloc, program, step.saturating_sub(1), m, values)
}

/// K1.
fn of_start(
    alloc: Global,
    program: &Program,
    step: u32,
    place: u32,
    values: &[Value],
) -> Result<Option<Violation>, Memory>
    ensures { IfOk result (λ told. told ≡ start_violation program.now step place (record { values = values.now })) }
{
    match copied(alloc, values) {
        Ok(values) => start_violation(alloc, program, step, place, Store { values }),
        Err(error) => Err(error),
    }
}

/// K11, of this action.
fn of_acting(
    alloc: Global,
    src: &Layered,
    held: &Held,
    step: u32,
    m: u32,
    action: &Action,
    target: Target,
    values: &[Value],
) -> Result<Option<Violation>, Memory>
    requires held { held.now.cuts ≡ all_held src.now }
    ensures { IfOk result (λ told. told ≡ act_violation src.now step (store_of (exists_near step) src.now values.now) m
        (invoked values.now (count_of (exists_near step) src.now) action.now) target
        values.now (count_of (exists_near step) src.now + instance_count action.now)) }
{
    let among = Among::Step(step);
    let rest = behind_globals(among, program(src), values);
    let x = call_of(m, action, rest);
    let aim = Aim {
        src,
        held,
        step,
        target,
        values: behind_call(action, rest),
    };
    match store_of(alloc, among, program(src), values) {
        Ok(store) => act_violation(alloc, &aim, store, &x),
        Err(error) => Err(error),
    }
}

/// K11.
fn of_act(
    alloc: Global,
    src: &Layered,
    held: &Held,
    step: u32,
    m: u32,
    target: Target,
    values: &[Value],
) -> Result<Option<Violation>, Memory>
    requires held { held.now.cuts ≡ all_held src.now }
    ensures { IfOk result (λ told. told ≡ of_action src.now m None (λ a. act_violation src.now step
        (store_of (exists_near step) src.now values.now) m (invoked values.now (count_of (exists_near step) src.now) a) target
        values.now (count_of (exists_near step) src.now + instance_count a))) }
{
    match program(src).actions.as_slice().get(m as usize) {
        Some(action) => of_acting(alloc, src, held, step, m, action, target, values),
        None => Ok(None),
    }
}

/// What these values violate a condition of K1 to K8 or K11 by, one for each variable of the condition in their order; nothing
/// where they don't violate it, and for another condition. The table says which locals the program holds at its cuts.
///
/// # Errors
///
/// For want of memory.
#[tactic(auto, unfolding(crate::specs::Told::violation))]
pub fn violation(
    alloc: Global,
    src: &Layered,
    held: &Held,
    condition: &Condition,
    values: &[Value],
) -> Result<Option<Violation>, Memory>
    requires held { held.now.cuts ≡ all_held src.now }
    ensures { IfOk result (λ told. told ≡ violation src.now condition.now values.now) }
{
    let program = program(src);
    match condition {
        Condition::Pair(number, step, m, n) => {
            of_pair(alloc, program, *number, *step, *m, *n, values)
        }
        Condition::Fire(step, m) => of_fire(alloc, program, *step, *m, values),
        Condition::Start(step, place) => of_start(alloc, program, *step, *place, values),
        Condition::Keep(step, m) => of_keep(alloc, program, *step, *m, values),
        Condition::Path(_, _, _, _) => Ok(None),
        Condition::Block(_, _, _, _) => Ok(None),
        Condition::Act(step, m, target) => { of_act(alloc, src, held, *step, *m, *target, values) }
    }
}
