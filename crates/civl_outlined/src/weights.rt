// The weight of each goal.
ghost use Rattle.std.specs.Prelude.{slice_get, IfOk};
ghost use Rattle.std.specs.List.{AllZip};
ghost use Rattle.std.specs.Option.{option_map_or};
ghost use Rattle.civl_tree.specs.rules.Rules.{Keeps};
ghost use Rattle.civl_meaning.specs.Meaning.{proc_number};
ghost use Rattle.civl_yields.specs.YieldRules.{yield_rules};
ghost use Rattle.civl_conditions.specs.Steps.{of_action};
ghost use Rattle.civl_conditions.specs.Weights.{linear_globals, keep_weight};
ghost use Rattle.civl_goals.specs.declared.goal.Goal.TheVariants as goal;
ghost use Rattle.civl_goals.specs.Weights.{weight, first_note_weight};
ghost use Rattle.civl_weighing.specs.Weighing.{Weighs};
ghost use Rattle.civl_weights.specs.sums.Sums.{OfAction};
ghost use Rattle.civl_weights.specs.Kinds.{instance_bits};
ghost use Rattle.civl_outlined.specs.inner.Said.{IsSaid, IsOf};
ghost use Rattle.civl_outlined.specs.inner.Sums.{OfSums, IsOfRoot, NamesRoots, IsFound, AreTogether, IsVariables, IsStatementGoal, IsOther};

use crate::roots::{ProcSums, all_procs};
use crate::said::{Said, first_note, weighed_outline};
use crate::statements::StatementSums;
use civl_goals::Goal;
use civl_layers::{Layered, program};
use civl_outlines::Outline;
use civl_tree::{List, Memory, Program};
use civl_weighing::bits::{all_globals, globals_at, linear_globals};
use civl_weighing::weight::{Weight, linear};
use civl_weights::sums::actions::{ActionSums, action_sums};
use civl_weights::sums::tables::initial_own;
use civl_weights::{instance_bits, keep_of};
use std::alloc::Global;

/// All that the weights of goals are added up from: what the outline says, the bits of all globals and of those of the topmost
/// program, how many globals are linear, the weight of `initial` without its variables, and the sums of each action and of
/// each procedure.
#[derive(Drop)]
pub(crate) struct Sums<'a> {
    pub said: Said<'a>,
    pub bits: Weight,
    pub top: Weight,
    pub globals: Weight,
    pub initial: Weight,
    pub actions: List<ActionSums>,
    pub procs: List<ProcSums>,
}

/// Works them out, once each.
pub(crate) fn work_out<'a>(
    alloc: Global,
    src: &'a Layered,
    outline: &'a Outline,
) -> Result<Sums<'a>, Memory>
    requires { Keeps yield_rules src.now }
    ensures of { IfOk result (λ sums. IsOf src.now outline.now sums.said) }
    ensures sums { IfOk result OfSums }
{
    let program = program(src);
    let said = weighed_outline(alloc, program, outline)?;
    let actions = action_sums(alloc, program)?;
    let procs = all_procs(alloc, src, &said, actions.as_slice())?;
    let globals = linear_globals(program);
    Ok(Sums {
        said,
        bits: all_globals(program.globals.as_slice()),
        top: globals_at(program.globals.as_slice(), program.layers),
        globals,
        initial: initial_own(program, globals),
        actions,
        procs,
    })
}

// ---- beginnings

fn invariant(sums: &Sums<'_>) -> Weight
    requires { OfSums sums.now }
    ensures { Weighs result (weight sums.now.said.program.now sums.now.said.outline.now goal.Invariant) }
{
    let twice = Weight::of(2).times(sums.said.holds);
    sums.bits.plus(twice.plus(sums.initial).plus(Weight::of(1)))
}

/// The weight of the first note of the procedure that a declared thread calls, where there is one.
fn thread_note(said: &Said<'_>, number: u32) -> Weight
    requires { IsSaid said.now }
    ensures { Weighs result (option_map_or (λ t. first_note_weight said.now.program.now said.now.outline.now (proc_number said.now.program.now t.callee)) (slice_get said.now.program.now.threads number) 0) }
{
    match said.program.threads.as_slice().get(number as usize) {
        Some(thread) => first_note(said, &thread.callee),
        None => Weight::of(0),
    }
}

fn thread(sums: &Sums<'_>, number: u32) -> Weight
    requires { OfSums sums.now }
    ensures { Weighs result (weight sums.now.said.program.now sums.now.said.outline.now (goal.Thread number)) }
{
    let begins = sums.said.holds.plus(thread_note(&sums.said, number));
    let twice = Weight::of(2).times(begins);
    sums.bits.plus(twice.plus(sums.initial).plus(Weight::of(1)))
}

// ---- actions of the top layer

fn keep_own(program: &Program, globals: Weight, actions: &[ActionSums], number: u32) -> Weight
    requires globals { Weighs globals (linear_globals program.now) }
    requires actions { AllZip (OfAction program.now) program.now.actions actions.now }
    ensures { Weighs result (of_action program.now number 0 (keep_weight program.now)) }
{
    match actions.get(number as usize) {
        Some(sums) => keep_of(program, globals, sums),
        None => Weight::of(0),
    }
}

fn keeps_permissions(sums: &Sums<'_>, number: u32) -> Weight
    requires { OfSums sums.now }
    ensures { Weighs result (weight sums.now.said.program.now sums.now.said.outline.now (goal.Linear number)) }
{
    let program = sums.said.program;
    let actions = sums.actions.as_slice();
    let instance = instance_bits(program, actions, number);
    sums.top
        .plus(instance)
        .plus(keep_own(program, sums.globals, actions, number))
}

// ---- statements

/// What is worked out of a statement of a root, and the bits of a frame of the root.
#[derive(Clone, Copy)]
pub(crate) struct Found {
    pub own: StatementSums,
    pub frame: Weight,
}

/// The sums of a statement of a root.
fn look_up(sums: &Sums<'_>, number: u32, statement: u32) -> Option<Found>
    requires sums { OfSums sums.now }
    requires there { IsOfRoot sums.now.said.program.now number statement }
    ensures { IsFound sums.now.said.program.now sums.now.said.outline.now number statement result }
{
    match sums.procs.as_slice().get(number as usize) {
        Some(proc) => match proc.statements.as_slice().get(statement as usize) {
            Some(own) => Some(Found {
                own: *own,
                frame: proc.frame,
            }),
            None => None,
        },
        None => None,
    }
}

/// The bits of the variables and what a goal weighs over so many linear items, where what it says counts twice.
fn together(program: &Program, variables: Weight, says: Weight, items: Weight) -> Weight
    ensures { AreTogether program.now variables says items result }
{
    let twice = Weight::of(2).times(says);
    variables.plus(twice.plus(linear(program, items)).plus(Weight::of(1)))
}

/// The bits of the store, of the root's frame and of the choices of its call.
fn variables(sums: &Sums<'_>, found: &Found) -> Weight
    ensures { IsVariables sums.now found.now result }
{
    sums.top.plus(found.frame.plus(found.own.choices))
}

/// A goal of a statement alone, which names this too.
fn statement_goal(sums: &Sums<'_>, found: &Found, named: Weight) -> Weight
    requires { OfSums sums.now }
    ensures { IsStatementGoal sums.now found.now named result }
{
    let variables = variables(sums, found);
    let says = found.own.base.plus(named);
    let items = sums.globals.plus(found.own.items);
    together(sums.said.program, variables, says, items)
}

/// A goal of a statement and of another thread, which stands before a statement of a root.
fn other_goal(sums: &Sums<'_>, found: &Found, other: &Found) -> Weight
    requires { OfSums sums.now }
    ensures { IsOther sums.now found.now other.now result }
{
    let variables = variables(sums, found).plus(other.frame);
    let says = found.own.base.plus(other.own.note);
    let items = sums.globals.plus(found.own.items).plus(other.own.items);
    together(sums.said.program, variables, says, items)
}

fn safe(sums: &Sums<'_>, number: u32, statement: u32) -> Weight
    requires sums { OfSums sums.now }
    requires there { IsOfRoot sums.now.said.program.now number statement }
    ensures { Weighs result (weight sums.now.said.program.now sums.now.said.outline.now (goal.Safe number statement)) }
{
    match look_up(sums, number, statement) {
        Some(found) => statement_goal(sums, &found, Weight::of(0)),
        None => Weight::of(0),
    }
}

fn spawn(sums: &Sums<'_>, number: u32, statement: u32) -> Weight
    requires sums { OfSums sums.now }
    requires there { IsOfRoot sums.now.said.program.now number statement }
    ensures { Weighs result (weight sums.now.said.program.now sums.now.said.outline.now (goal.Spawn number statement)) }
{
    match look_up(sums, number, statement) {
        Some(found) => statement_goal(sums, &found, found.own.begins),
        None => Weight::of(0),
    }
}

fn next(sums: &Sums<'_>, number: u32, statement: u32) -> Weight
    requires sums { OfSums sums.now }
    requires there { IsOfRoot sums.now.said.program.now number statement }
    ensures { Weighs result (weight sums.now.said.program.now sums.now.said.outline.now (goal.Next number statement)) }
{
    match look_up(sums, number, statement) {
        Some(found) => statement_goal(sums, &found, found.own.reaches),
        None => Weight::of(0),
    }
}

fn other(sums: &Sums<'_>, number: u32, statement: u32, root: u32, place: u32) -> Weight
    requires sums { OfSums sums.now }
    requires there { IsOfRoot sums.now.said.program.now number statement }
    requires beside { IsOfRoot sums.now.said.program.now root place }
    ensures { Weighs result (weight sums.now.said.program.now sums.now.said.outline.now (goal.Other number statement root place)) }
{
    match look_up(sums, number, statement) {
        Some(own) => match look_up(sums, root, place) {
            Some(other) => other_goal(sums, &own, &other),
            None => Weight::of(0),
        },
        None => Weight::of(0),
    }
}

// ---- all

/// The weight of a goal.
pub(crate) fn weigh(sums: &Sums<'_>, goal: &Goal) -> Weight
    requires sums { OfSums sums.now }
    requires roots { NamesRoots sums.now.said.program.now goal.now }
    ensures { Weighs result (weight sums.now.said.program.now sums.now.said.outline.now goal.now) }
{
    match *goal {
        Goal::Invariant => invariant(sums),
        Goal::Thread(number) => thread(sums, number),
        Goal::Linear(number) => keeps_permissions(sums, number),
        Goal::Safe(number, statement) => safe(sums, number, statement),
        Goal::Keep(number, statement) => safe(sums, number, statement),
        Goal::Spawn(number, statement) => spawn(sums, number, statement),
        Goal::Next(number, statement) => next(sums, number, statement),
        Goal::Other(number, statement, root, place) => {
            other(sums, number, statement, root, place)
        }
    }
}
