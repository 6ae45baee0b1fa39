// The weight of each condition.
ghost use Rattle.std.specs.Prelude.{◌≡◌, ◌+◌, IfOk};
ghost use Rattle.std.specs.List.{AllZip};
ghost use Rattle.civl_firing.specs.values.ActionWeights.{gate_weight, guard_weight, offers_weight};
ghost use Rattle.civl_conditions.specs.declared.condition.Condition.TheVariants.{Start, Keep, Pair, Fire, Path, Block, Act};
ghost use Rattle.civl_conditions.specs.Steps.{of_action};
ghost use Rattle.civl_conditions.specs.Weights.{weight, outs_bits, keep_weight, pair_weight, linear_globals, target_items};
ghost use Rattle.civl_weighing.specs.Weighing.{Weighs};
ghost use Rattle.civl_weights.specs.sums.Sums.{OfAction, OfStep};
ghost use Rattle.civl_weights.specs.sums.Tables.{OfProgram};
ghost use Rattle.civl_weights.specs.Kinds.{instance_bits, OfCutFound, IsKeep, IsPair, IsAct, IsActAt, IsPart, IsPath, IsBlock, step_of};

use crate::sums::actions::ActionSums;
use crate::sums::cuts::CutSums;
use crate::sums::steps::StepSums;
use crate::sums::tables::{Tables, cuts_at};
use crate::sums::targets::{TargetSums, target_sums, together};
use civl_conditions::{Condition, Part, Target};
use civl_layers::{Layered, program};
use civl_tree::{Memory, Program};
use civl_weighing::lists::weight_at;
use civl_weighing::weight::{Weight, linear};
use std::alloc::Global;

/// The step of a condition.
pub fn step_of(condition: &Condition) -> u32
    ensures { result ≡ step_of condition.now }
{
    match *condition {
        Condition::Start(step, _) => step,
        Condition::Keep(step, _) => step,
        Condition::Pair(_, step, _, _) => step,
        Condition::Fire(step, _) => step,
        Condition::Path(_, step, _, _) => step,
        Condition::Block(step, _, _, _) => step,
        Condition::Act(step, _, _) => step,
    }
}

// ---- parts

/// The bits of the parameters and choices of the action with this number, where there is one.
pub fn instance_bits(program: &Program, actions: &[ActionSums], number: u32) -> Weight
    requires { AllZip (OfAction program.now) program.now.actions actions.now }
    ensures { Weighs result (of_action program.now number 0 instance_bits) }
{
    match actions.get(number as usize) {
        Some(sums) => sums.params.plus(sums.choices),
        None => Weight::of(0),
    }
}

/// The bits of the parameters alone.
fn inputs_bits(program: &Program, actions: &[ActionSums], number: u32) -> Weight
    requires { AllZip (OfAction program.now) program.now.actions actions.now }
    ensures { Weighs result (of_action program.now number 0 (λ a. outs_bits a.params)) }
{
    match actions.get(number as usize) {
        Some(sums) => sums.params,
        None => Weight::of(0),
    }
}

/// The sums of a cut at a step, where there is one: those of its procedure that are at hand, where they are of this step.
fn cut_found(
    alloc: Global,
    src: &Layered,
    tables: &Tables,
    step: &StepSums,
    number: u32,
    cut: u32,
) -> Result<Option<CutSums>, Memory>
    requires tables { OfProgram src.now tables.now }
    requires step { OfStep src.now step.now }
    ensures { IfOk result (OfCutFound src.now step.now.step number cut) }
{
    let procs = program(src).procs.as_slice();
    match procs.get(number as usize) {
        Some(proc) => match tables.procs.as_slice().get(number as usize) {
            Some(sums) => {
                if sums.step == step.step {
                    return Ok(sums.cuts.as_slice().get(cut as usize).copied());
                }
                let actions = tables.actions.as_slice();
                let cuts = cuts_at(
                    alloc,
                    src,
                    actions,
                    tables.globals,
                    step,
                    number,
                    proc,
                    &sums.notes,
                )?;
                Ok(cuts.as_slice().get(cut as usize).copied())
            }
            None => Ok(None),
        },
        None => Ok(None),
    }
}

// ---- own weights

/// The weight of a condition that an action keeps permissions apart, without its variables: `globals` is that of the linear globals.
pub fn keep_of(program: &Program, globals: Weight, sums: &ActionSums) -> Weight
    requires { Weighs globals (linear_globals program.now) }
    ensures { IsKeep program.now sums.now result }
{
    let coming = globals.plus(sums.inputs);
    let going = globals.plus(sums.lent).plus(sums.given);
    let made = going.times(Weight::power(program.permissions));
    sums.whole()
        .plus(linear(program, coming))
        .plus(linear(program, going))
        .plus(made)
}

fn keep_own(program: &Program, tables: &Tables, x: u32) -> Weight
    requires { OfProgram program.now tables.now }
    ensures { Weighs result (of_action program.now x 0 (keep_weight program.now)) }
{
    match tables.actions.as_slice().get(x as usize) {
        Some(sums) => keep_of(program, tables.globals, sums),
        None => Weight::of(0),
    }
}

fn pair_of(
    program: &Program,
    globals: Weight,
    step: &StepSums,
    first: &ActionSums,
    second: &ActionSums,
) -> Weight
    requires globals { Weighs globals (linear_globals program.now) }
    requires step { OfStep program.now step.now }
    ensures { IsPair program.now step.now.step first.now second.now result }
{
    let twice = Weight::of(2).times(first.whole().plus(second.whole()));
    let items = globals.plus(first.inputs).plus(second.inputs);
    twice
        .plus(step.lower)
        .plus(first.outs)
        .plus(second.outs)
        .plus(linear(program, items))
}

fn pair_own(program: &Program, tables: &Tables, step: &StepSums, x: u32, y: u32) -> Weight
    requires tables { OfProgram program.now tables.now }
    requires step { OfStep program.now step.now }
    ensures { Weighs result (of_action program.now x 0 (λ a. of_action program.now y 0 (pair_weight program.now step.now.step a))) }
{
    let actions = tables.actions.as_slice();
    match actions.get(x as usize) {
        Some(first) => match actions.get(y as usize) {
            Some(second) => pair_of(program, tables.globals, step, first, second),
            None => Weight::of(0),
        },
        None => Weight::of(0),
    }
}

fn fire_own(program: &Program, actions: &[ActionSums], x: u32) -> Weight
    requires { AllZip (OfAction program.now) program.now.actions actions.now }
    ensures { Weighs result (of_action program.now x 0 (λ a. gate_weight program.now a + guard_weight program.now a + offers_weight program.now a)) }
{
    match actions.get(x as usize) {
        Some(sums) => sums.gate.plus(sums.guard).plus(sums.offers),
        None => Weight::of(0),
    }
}

fn act_of(
    program: &Program,
    globals: Weight,
    together: Weight,
    sums: &ActionSums,
    target: TargetSums,
) -> Weight
    requires { Weighs globals (linear_globals program.now) }
    ensures { IsAct program.now together sums.now target result }
{
    let twice = Weight::of(2).times(target.weight);
    let items = globals.plus(sums.inputs).plus(target.items);
    sums.whole()
        .plus(together)
        .plus(twice)
        .plus(linear(program, items))
}

fn act_own(
    program: &Program,
    tables: &Tables,
    step: &StepSums,
    x: u32,
    target: TargetSums,
) -> Weight
    requires tables { OfProgram program.now tables.now }
    requires step { OfStep program.now step.now }
    ensures { IsActAt program.now step.now.step x target result }
{
    match tables.actions.as_slice().get(x as usize) {
        Some(sums) => act_of(program, tables.globals, step.together, sums, target),
        None => Weight::of(0),
    }
}

/// What a part weighs at all ends together.
fn part_of(sums: &CutSums, part: Part) -> Weight
    ensures { IsPart sums.now part result }
{
    match part {
        Part::Gate => sums.gate,
        Part::Invariant => sums.invariant,
        Part::Once => sums.gate,
        Part::Stutter => sums.stutter,
        Part::Perform => sums.perform,
        Part::Rank => sums.rank,
    }
}

/// K9 of a part from a cut.
fn path_of(sums: &CutSums, part: Part) -> Weight
    ensures { IsPath sums.now part result }
{
    let own = sums.base.plus(sums.passed).plus(part_of(sums, part));
    sums.variables.plus(own)
}

/// K10 from a cut.
fn block_of(program: &Program, sums: &CutSums, target: Target, wanted: TargetSums) -> Weight
    requires { Weighs wanted.items (target_items program.now target) }
    ensures { IsBlock program.now sums.now target wanted result }
{
    let at_ends = sums.stops.times(wanted.weight.plus(Weight::of(1)));
    let own = sums
        .base
        .plus(sums.passed)
        .plus(at_ends)
        .plus(wanted.weight);
    let both = together(program, sums.items, target, wanted);
    sums.variables.plus(wanted.frame).plus(own.plus(both))
}

// ---- conditions

fn start(program: &Program, tables: &Tables, step: &StepSums, number: u32) -> Weight
    requires tables { OfProgram program.now tables.now }
    requires step { OfStep program.now step.now }
    ensures { Weighs result (weight program.now (Start step.now.step number)) }
{
    let invariant = weight_at(step.invariants.as_slice(), number);
    tables.bits.plus(tables.initial.plus(invariant))
}

fn keep(program: &Program, tables: &Tables, step: &StepSums, x: u32) -> Weight
    requires tables { OfProgram program.now tables.now }
    requires step { OfStep program.now step.now }
    ensures { Weighs result (weight program.now (Keep step.now.step x)) }
{
    let instance = instance_bits(program, tables.actions.as_slice(), x);
    step.lower.plus(instance).plus(keep_own(program, tables, x))
}

fn pair(program: &Program, tables: &Tables, step: &StepSums, number: u32, x: u32, y: u32) -> Weight
    requires tables { OfProgram program.now tables.now }
    requires step { OfStep program.now step.now }
    ensures { Weighs result (weight program.now (Pair number step.now.step x y)) }
{
    let _number = number;
    let actions = tables.actions.as_slice();
    let first = instance_bits(program, actions, x);
    let second = instance_bits(program, actions, y);
    let variables = step.lower.plus(first.plus(second));
    variables.plus(pair_own(program, tables, step, x, y))
}

fn fire(program: &Program, tables: &Tables, step: &StepSums, x: u32) -> Weight
    requires tables { OfProgram program.now tables.now }
    requires step { OfStep program.now step.now }
    ensures { Weighs result (weight program.now (Fire step.now.step x)) }
{
    let actions = tables.actions.as_slice();
    let inputs = inputs_bits(program, actions, x);
    step.lower.plus(inputs).plus(fire_own(program, actions, x))
}

fn act(program: &Program, tables: &Tables, step: &StepSums, x: u32, target: Target) -> Weight
    requires tables { OfProgram program.now tables.now }
    requires step { OfStep program.now step.now }
    ensures { Weighs result (weight program.now (Act step.now.step x target)) }
{
    let wanted = target_sums(program, tables, step, target);
    let instance = instance_bits(program, tables.actions.as_slice(), x);
    let variables = step.near.plus(instance.plus(wanted.frame));
    variables.plus(act_own(program, tables, step, x, wanted))
}

fn path(
    alloc: Global,
    src: &Layered,
    tables: &Tables,
    step: &StepSums,
    part: Part,
    number: u32,
    cut: u32,
) -> Result<Weight, Memory>
    requires tables { OfProgram src.now tables.now }
    requires step { OfStep src.now step.now }
    ensures { IfOk result (λ weighed. Weighs weighed (weight src.now (Path part step.now.step number cut))) }
{
    let found = cut_found(alloc, src, tables, step, number, cut)?;
    match found {
        Some(sums) => Ok(path_of(&sums, part)),
        None => Ok(Weight::of(0)),
    }
}

fn block(
    alloc: Global,
    src: &Layered,
    tables: &Tables,
    step: &StepSums,
    number: u32,
    cut: u32,
    target: Target,
) -> Result<Weight, Memory>
    requires tables { OfProgram src.now tables.now }
    requires step { OfStep src.now step.now }
    ensures { IfOk result (λ weighed. Weighs weighed (weight src.now (Block step.now.step number cut target))) }
{
    let program = program(src);
    let wanted = target_sums(program, tables, step, target);
    let found = cut_found(alloc, src, tables, step, number, cut)?;
    match found {
        Some(sums) => Ok(block_of(program, &sums, target, wanted)),
        None => Ok(wanted.frame),
    }
}

/// The weight of a condition of this step, with its variables.
pub fn weigh(
    alloc: Global,
    src: &Layered,
    tables: &Tables,
    step: &StepSums,
    condition: &Condition,
) -> Result<Weight, Memory>
    requires tables { OfProgram src.now tables.now }
    requires step { OfStep src.now step.now }
    requires same { step.now.step ≡ step_of condition.now }
    ensures { IfOk result (λ weighed. Weighs weighed (weight src.now condition.now)) }
{
    let program = program(src);
    match *condition {
        Condition::Start(_, number) => Ok(start(program, tables, step, number)),
        Condition::Keep(_, x) => Ok(keep(program, tables, step, x)),
        Condition::Pair(number, _, x, y) => Ok(pair(program, tables, step, number, x, y)),
        Condition::Fire(_, x) => Ok(fire(program, tables, step, x)),
        Condition::Path(part, _, number, cut) => path(alloc, src, tables, step, part, number, cut),
        Condition::Block(_, number, cut, target) => block(
            alloc, src, tables, step, number, cut, target,
        ),
        Condition::Act(_, x, target) => Ok(act(program, tables, step, x, target)),
    }
}
