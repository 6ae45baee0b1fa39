// The variables for the choices of the calls that some path passes.
ghost use Rattle.std.specs.Prelude.{◌≡◌, ◌+◌, ◌≤◌, ◌<◌, ◌^◌, [], length, map, slice_get, All, IsTrue, IfOk, OnOk, Some};
ghost use Rattle.std.specs.Option.{option_map_or};
ghost use Rattle.civl_tree.specs.declared.stmt.Stmt.{out-Stmt};
ghost use Rattle.civl_tree.specs.declared.program.Proc.{Proc};
ghost use Rattle.civl_firing.specs.values.Values.{is_sort};
ghost use Rattle.civl_meaning.specs.Meaning.{called};
ghost use Rattle.civl_meaning.specs.Layers.{program_at};
ghost use Rattle.civl_terms.specs.Building.{Lengthens};
ghost use Rattle.civl_terms.specs.Weights.{graph_weight};
ghost use Rattle.civl_conditions.specs.Variables.{choices_of, layer_choices, passed_choices};
ghost use Rattle.civl_states.specs.formula_parts.Given.{bits_of_sorts, AreVariablesOf};
ghost use Rattle.civl_layers.specs.declared.cut.Cut.{Cut};
ghost use Rattle.civl_layers.specs.Cuts.{proc_cuts};
ghost use Rattle.civl_bodies.specs.Bodies.{ArePassed, IsBody};
ghost use Rattle.civl_states.specs.Groups.{StandFrom};
ghost use Rattle.civl_states.specs.Laying.{calls_at, call_sorts, with_some, AreChosen, ChooseMore};

use crate::choices::{Choices, Chosen};
use crate::formula_parts::variables;
use civl_bodies::{Body, passed_at};
use civl_conditions::action_called;
use civl_layers::Cut;
use civl_terms::{Memory, Terms};
use civl_tree::{Choice, Name, Proc, Program, Sort, Stmt};
use std::alloc::Global as Alloc;

/// The choices of the action that a call of this name means in the program of a layer; none where it means none.
fn called_choices<'a>(program: &'a Program, layer: u32, callee: &Name) -> &'a [Choice]
    ensures { result.now ≡ choices_of (called (program_at program.now layer) callee.now) }
{
    match action_called(program, layer, callee) {
        Some(action) => action.choices.as_slice(),
        None => &[],
    }
}

/// The choices of a statement: those of the action that it calls.
fn stmt_choices<'a>(program: &'a Program, layer: u32, stmt: &Stmt) -> &'a [Choice]
    ensures { result.now ≡ layer_choices (program_at program.now layer) (out-Stmt stmt.now) }
{
    match stmt {
        Stmt::Call(callee, _, _) => called_choices(program, layer, callee),
        Stmt::Assign(_, _) => &[],
        Stmt::Assert(_) => &[],
        Stmt::If(_, _, _) => &[],
        Stmt::While(_, _) => &[],
        Stmt::YieldLoop(_, _, _) => &[],
        Stmt::RankLoop(_, _, _, _) => &[],
        Stmt::Yield(_) => &[],
        Stmt::Commit => &[],
        Stmt::Intro(_, _) => &[],
        Stmt::Spawn(_, _) => &[],
    }
}

/// The choices of the statement that has this number among these.
pub(crate) fn number_choices<'a>(
    program: &'a Program,
    layer: u32,
    flat: &[&Stmt],
    number: u32,
) -> &'a [Choice]
    ensures { result.now ≡ option_map_or (λ s. layer_choices (program_at program.now layer) (out-Stmt s)) (slice_get (map (λ s. s.now) flat.now) number) [] }
{
    match flat.get(number as usize) {
        Some(stmt) => stmt_choices(program, layer, stmt),
        None => &[],
    }
}

/// Puts the variables for the choices of the statement with this number, from the number `first` on, behind those of others; nothing
/// where it has none.
fn push_call(
    alloc: Alloc,
    terms: &mut Terms,
    sorts: &[Sort],
    calls: &mut Vec<Chosen>,
    statement: u32,
    choices: &[Choice],
    first: u32,
) -> Result<(), Memory>
    requires stand { StandFrom sorts.now first (map (λ c. c.sort) choices.now) }
    requires small { length sorts.now < 2 ^ 32 }
    requires limits { All (λ s. IsTrue (is_sort s)) sorts.now }
    requires variables { AreVariablesOf terms.old sorts.now }
    ensures chosen { OnOk result (ChooseMore terms.old terms.new calls.old.items calls.new.items (statement, choices.now) first) }
    ensures variables { AreVariablesOf terms.new sorts.now }
    ensures lengthens { Lengthens terms.old terms.new }
    ensures weighs { OnOk result (graph_weight terms.new ≤ graph_weight terms.old + bits_of_sorts (map (λ c. c.sort) choices.now)) }
{
    if choices.len() == 0 {
        let _count = terms.len();
        return Ok(());
    }
    let choices = variables(alloc, terms, sorts, first, choices.len() as u32)?;
    calls.push(Chosen { statement, choices })?;
    Ok(())
}

/// The variables for the choices of the statements with these numbers, from this number on.
fn choices_from(
    alloc: Alloc,
    terms: &mut Terms,
    sorts: &[Sort],
    program: &Program,
    layer: u32,
    flat: &[&Stmt],
    numbers: &[u32],
    first: u32,
) -> Result<Vec<Chosen>, Memory>
    requires stand { StandFrom sorts.now first (call_sorts (calls_at program.now layer (map (λ s. s.now) flat.now) numbers.now)) }
    requires small { length sorts.now < 2 ^ 32 }
    requires limits { All (λ s. IsTrue (is_sort s)) sorts.now }
    requires variables { AreVariablesOf terms.old sorts.now }
    ensures chosen { IfOk result (λ calls. AreChosen terms.new calls.items (with_some (calls_at program.now layer (map (λ s. s.now) flat.now) numbers.now)) first) }
    ensures variables { AreVariablesOf terms.new sorts.now }
    ensures lengthens { Lengthens terms.old terms.new }
    ensures weighs { OnOk result (graph_weight terms.new ≤ graph_weight terms.old + bits_of_sorts (call_sorts (calls_at program.now layer (map (λ s. s.now) flat.now) numbers.now))) }
{
    let mut calls = Vec::new(alloc);
    let mut next = first;
    for number in numbers {
        let choices = number_choices(program, layer, flat, *number);
        push_call(alloc, terms, sorts, &mut calls, *number, choices, next)?;
        next += choices.len() as u32;
    }
    Ok(calls)
}

/// The numbers of the statements that some path from the cut with this number passes, which is one of the body's.
pub(crate) fn passed_from(alloc: Alloc, body: &Body<'_>, number: u32) -> Result<Vec<u32>, Memory>
    requires { number < length body.now.passed.items }
    ensures { IfOk result (λ passed. (proc : Proc) (cut : Cut) → IsBody proc body.now → slice_get body.now.cuts number ≡ Some cut → ArePassed proc cut passed.items) }
{
    passed_at(alloc, body, number)
}

/// The variables for the choices of the calls that some path from a cut of a procedure passes, from this number on.
pub(crate) fn begin_choices(
    alloc: Alloc,
    terms: &mut Terms,
    sorts: &[Sort],
    program: &Program,
    step: u32,
    proc: &Proc,
    number: u32,
    cut: Cut,
    body: &Body<'_>,
    first: u32,
) -> Result<Choices, Memory>
    requires there { slice_get (proc_cuts proc.now) number ≡ Some cut }
    requires body { IsBody proc.now body.now }
    requires stand { StandFrom sorts.now first (call_sorts (passed_choices program.now step proc.now cut)) }
    requires small { length sorts.now < 2 ^ 32 }
    requires limits { All (λ s. IsTrue (is_sort s)) sorts.now }
    requires variables { AreVariablesOf terms.old sorts.now }
    ensures chosen { IfOk result (λ calls. AreChosen terms.new calls (with_some (passed_choices program.now step proc.now cut)) first) }
    ensures variables { AreVariablesOf terms.new sorts.now }
    ensures lengthens { Lengthens terms.old terms.new }
    ensures weighs { OnOk result (graph_weight terms.new ≤ graph_weight terms.old + bits_of_sorts (call_sorts (passed_choices program.now step proc.now cut))) }
{
    let passed = passed_from(alloc, body, number)?;
    let calls = choices_from(
        alloc,
        terms,
        sorts,
        program,
        step.saturating_sub(1),
        body.statements.as_slice(),
        passed.as_slice(),
        first,
    )?;
    Ok(Choices::from_vec(calls))
}
