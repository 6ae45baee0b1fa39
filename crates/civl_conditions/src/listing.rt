// The conditions of a layered program, in their order.
ghost use Rattle.std.specs.Prelude.{◌≡◌, ◌++◌, ◌∷◌, [], map, flat_map, OnOk, IfOk, if◌then◌else◌};
ghost use Rattle.civl_tree.specs.Numbered.{IsNumbered};
ghost use Rattle.civl_conditions.specs.declared.condition.Condition.TheVariants as condition;
ghost use Rattle.civl_conditions.specs.declared.condition.Target.TheVariants as target;
ghost use Rattle.civl_conditions.specs.Steps.{begins_below, lasts_through, step_invariants, each_at};
ghost use Rattle.civl_layers.specs.Movers.{is_left, is_right};
ghost use Rattle.civl_conditions.specs.Listed.{starts, keeps, pair_of, fire_of, movers, at_step, conditions};
ghost use Rattle.civl_conditions.specs.inner.Placed.{step_places, parts_from, yield_at, blocks_from};

use crate::condition::{Condition, Part, Target};
use crate::places::{Place, step_places};
use crate::steps::{begins_below, invariant_count, is_left, is_right, lasts_through, meet_below};
use civl_layers::{CutKind, Layered, program};
use civl_tree::{Action, List, Memory, Mover, Program, beside};
use std::alloc::Global;

// ---- K1 and K2

fn push_starts(list: &mut List<Condition>, program: &Program, step: u32) -> Result<(), Memory>
    requires { IsNumbered program.now }
    ensures { OnOk result (list.new ≡ list.old ++ starts program.now step) }
{
    for at in 0..invariant_count(program, step) {
        list.push(Condition::Start(step, at))?;
    }
    Ok(())
}

fn push_keep(list: &mut List<Condition>, step: u32, at: u32, action: &Action) -> Result<(), Memory>
    ensures { OnOk result (list.new ≡ list.old ++ (if begins_below step action.now then condition.Keep step at ∷ [] else [])) }
{
    if begins_below(step, action) {
        list.push(Condition::Keep(step, at))?;
    }
    Ok(())
}

fn push_keeps(list: &mut List<Condition>, program: &Program, step: u32) -> Result<(), Memory>
    requires { IsNumbered program.now }
    ensures { OnOk result (list.new ≡ list.old ++ keeps program.now step) }
{
    let actions = program.actions.as_slice();
    for (at, action) in actions.iter().enumerate() {
        push_keep(list, step, at as u32, action)?;
    }
    Ok(())
}

// ---- K3 to K8

fn push_right(
    list: &mut List<Condition>,
    step: u32,
    first: u32,
    second: u32,
    mover: Mover,
) -> Result<(), Memory>
    ensures { OnOk result (list.new ≡ list.old ++ (if is_right mover then condition.Pair 3 step first second ∷ condition.Pair 4 step first second ∷ [] else [])) }
{
    if is_right(mover) {
        list.push(Condition::Pair(3, step, first, second))?;
        list.push(Condition::Pair(4, step, first, second))?;
    }
    Ok(())
}

fn push_left(
    list: &mut List<Condition>,
    step: u32,
    first: u32,
    second: u32,
    mover: Mover,
) -> Result<(), Memory>
    ensures { OnOk result (list.new ≡ list.old ++ (if is_left mover then condition.Pair 5 step first second ∷ condition.Pair 6 step first second ∷ condition.Pair 7 step first second ∷ [] else [])) }
{
    if is_left(mover) {
        list.push(Condition::Pair(5, step, first, second))?;
        list.push(Condition::Pair(6, step, first, second))?;
        list.push(Condition::Pair(7, step, first, second))?;
    }
    Ok(())
}

/// The pairs of two actions, each with its number.
fn push_pair(
    list: &mut List<Condition>,
    step: u32,
    x: u32,
    first: &Action,
    y: u32,
    second: &Action,
) -> Result<(), Memory>
    ensures { OnOk result (list.new ≡ list.old ++ pair_of step x first.now y second.now) }
{
    if meet_below(step, first, second) {
        push_right(list, step, x, y, first.mover)?;
        push_left(list, step, x, y, first.mover)?;
    }
    Ok(())
}

/// The pairs of an action with each action.
fn push_pairs(
    list: &mut List<Condition>,
    program: &Program,
    step: u32,
    x: u32,
    first: &Action,
) -> Result<(), Memory>
    requires { IsNumbered program.now }
    ensures { OnOk result (list.new ≡ list.old ++ each_at (pair_of step x first.now) 0 program.now.actions) }
{
    let actions = program.actions.as_slice();
    for (y, second) in actions.iter().enumerate() {
        push_pair(list, step, x, first, y as u32, second)?;
    }
    Ok(())
}

fn push_fire(list: &mut List<Condition>, step: u32, at: u32, action: &Action) -> Result<(), Memory>
    ensures { OnOk result (list.new ≡ list.old ++ fire_of step at action.now) }
{
    if is_left(action.mover) && begins_below(step, action) {
        list.push(Condition::Fire(step, at))?;
    }
    Ok(())
}

/// The pairs of each action, and then its own.
fn push_movers(list: &mut List<Condition>, program: &Program, step: u32) -> Result<(), Memory>
    requires { IsNumbered program.now }
    ensures { OnOk result (list.new ≡ list.old ++ movers program.now step) }
{
    let actions = program.actions.as_slice();
    for (at, action) in actions.iter().enumerate() {
        push_pairs(list, program, step, at as u32, action)?;
        push_fire(list, step, at as u32, action)?;
    }
    Ok(())
}

// ---- K9

fn push_parts(list: &mut List<Condition>, step: u32, place: Place) -> Result<(), Memory>
    ensures { OnOk result (list.new ≡ list.old ++ parts_from step place) }
{
    let Place { proc, cut, kind } = place;
    list.push(Condition::Path(Part::Gate, step, proc, cut))?;
    list.push(Condition::Path(Part::Invariant, step, proc, cut))?;
    list.push(Condition::Path(Part::Once, step, proc, cut))?;
    list.push(Condition::Path(Part::Stutter, step, proc, cut))?;
    list.push(Condition::Path(Part::Perform, step, proc, cut))?;
    if matches!(kind, CutKind::RankLoop) {
        list.push(Condition::Path(Part::Rank, step, proc, cut))?;
    }
    Ok(())
}

fn push_paths(list: &mut List<Condition>, step: u32, places: &[Place]) -> Result<(), Memory>
    ensures { OnOk result (list.new ≡ list.old ++ flat_map (parts_from step) places.now) }
{
    for place in places {
        push_parts(list, step, *place)?;
    }
    Ok(())
}

// ---- targets

fn push_invariants(list: &mut List<Target>, program: &Program, step: u32) -> Result<(), Memory>
    requires { IsNumbered program.now }
    ensures { OnOk result (list.new ≡ list.old ++ each_at (λ i e. target.Invariant i ∷ []) 0 (step_invariants program.now step)) }
{
    for at in 0..invariant_count(program, step) {
        list.push(Target::Invariant(at))?;
    }
    Ok(())
}

fn push_yield(list: &mut List<Target>, place: Place) -> Result<(), Memory>
    ensures { OnOk result (list.new ≡ list.old ++ yield_at place) }
{
    match place.kind {
        CutKind::Yield | CutKind::YieldLoop => {
            list.push(Target::Yield(place.proc, place.cut))?;
            Ok(())
        }
        CutKind::Entry | CutKind::RankLoop => Ok(()),
    }
}

fn push_yields(list: &mut List<Target>, places: &[Place]) -> Result<(), Memory>
    ensures { OnOk result (list.new ≡ list.old ++ flat_map yield_at places.now) }
{
    for place in places {
        push_yield(list, *place)?;
    }
    Ok(())
}

/// What blocks and actions have to keep at a step, whose cuts these are.
fn targets(
    alloc: Global,
    program: &Program,
    step: u32,
    places: &[Place],
) -> Result<List<Target>, Memory>
    requires { IsNumbered program.now }
    ensures { IfOk result (λ targets. targets ≡ each_at (λ i e. target.Invariant i ∷ []) 0 (step_invariants program.now step) ++ flat_map yield_at places.now) }
{
    let mut targets = List::new(alloc);
    push_invariants(&mut targets, program, step)?;
    push_yields(&mut targets, places)?;
    Ok(targets)
}

// ---- K10 and K11

fn push_block(
    list: &mut List<Condition>,
    step: u32,
    place: Place,
    targets: &[Target],
) -> Result<(), Memory>
    ensures { OnOk result (list.new ≡ list.old ++ blocks_from step targets.now place) }
{
    for target in targets {
        list.push(Condition::Block(step, place.proc, place.cut, *target))?;
    }
    Ok(())
}

fn push_blocks(
    list: &mut List<Condition>,
    step: u32,
    places: &[Place],
    targets: &[Target],
) -> Result<(), Memory>
    ensures { OnOk result (list.new ≡ list.old ++ flat_map (blocks_from step targets.now) places.now) }
{
    for place in places {
        push_block(list, step, *place, targets)?;
    }
    Ok(())
}

fn push_act(
    list: &mut List<Condition>,
    step: u32,
    at: u32,
    targets: &[Target],
) -> Result<(), Memory>
    ensures { OnOk result (list.new ≡ list.old ++ map (condition.Act step at) targets.now) }
{
    for target in targets {
        list.push(Condition::Act(step, at, *target))?;
    }
    Ok(())
}

fn push_lasting(
    list: &mut List<Condition>,
    step: u32,
    at: u32,
    action: &Action,
    targets: &[Target],
) -> Result<(), Memory>
    ensures { OnOk result (list.new ≡ list.old ++ (if lasts_through step action.now then map (condition.Act step at) targets.now else [])) }
{
    if lasts_through(step, action) {
        push_act(list, step, at, targets)?;
    }
    Ok(())
}

fn push_acts(
    list: &mut List<Condition>,
    program: &Program,
    step: u32,
    targets: &[Target],
) -> Result<(), Memory>
    requires { IsNumbered program.now }
    ensures { OnOk result (list.new ≡ list.old ++ each_at (λ x a. if lasts_through step a then map (condition.Act step x) targets.now else []) 0 program.now.actions) }
{
    let actions = program.actions.as_slice();
    for (at, action) in actions.iter().enumerate() {
        push_lasting(list, step, at as u32, action, targets)?;
    }
    Ok(())
}

// ---- all

/// The conditions of a step, of which these are the cuts, and what has to be kept at it.
fn push_all(
    list: &mut List<Condition>,
    program: &Program,
    step: u32,
    places: &[Place],
    wanted: &[Target],
) -> Result<(), Memory>
    requires numbered { IsNumbered program.now }
    requires places { places.now ≡ step_places program.now step }
    requires wanted { wanted.now ≡ each_at (λ i e. target.Invariant i ∷ []) 0 (step_invariants program.now step) ++ flat_map yield_at places.now }
    ensures { OnOk result (list.new ≡ list.old ++ at_step program.now step) }
{
    push_starts(list, program, step)?;
    push_keeps(list, program, step)?;
    push_movers(list, program, step)?;
    push_paths(list, step, places)?;
    push_blocks(list, step, places, wanted)?;
    push_acts(list, program, step, wanted)?;
    Ok(())
}

/// The conditions of a step.
fn push_step(
    alloc: Global,
    list: &mut List<Condition>,
    src: &Layered,
    step: u32,
) -> Result<(), Memory>
    ensures { OnOk result (list.new ≡ list.old ++ at_step src.now step) }
{
    let program = program(src);
    let places = step_places(alloc, src, step)?;
    let wanted = targets(alloc, program, step, places.as_slice());
    let (places, wanted) = beside(places, wanted)?;
    push_all(list, program, step, places.as_slice(), wanted.as_slice())
}

/// All conditions of a layered program in their order, step by step: for each step K1 to K11, of which the K3 to K8 of an
/// action stand together.
///
/// # Errors
///
/// For want of memory.
#[tactic(auto, unfolding(crate::specs::Listed::conditions))]
pub fn listed(alloc: Global, src: &Layered) -> Result<List<Condition>, Memory>
    ensures { IfOk result (λ found. found ≡ conditions src.now) }
{
    let mut found = List::new(alloc);
    for below in 0..program(src).layers {
        push_step(alloc, &mut found, src, below + 1)?;
    }
    Ok(found)
}
