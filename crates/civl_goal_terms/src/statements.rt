// The goals of a statement.
ghost use Rattle.std.specs.Prelude.{◌≡◌, ◌+◌, ◌*◌, ◌≤◌, ◌<◌, ◌^◌, ◌++◌, List as ListOf, length, slice_get, All, IsTrue, Some, IfOk, OnOk};
ghost use Rattle.civl_tree.specs.declared.expr.Sort.{Sort as Sorted};
ghost use Rattle.civl_tree.specs.declared.expr.Sort.TheVariants.{Bool as Truth};
ghost use Rattle.civl_tree.specs.declared.stmt.Stmt.{out-Stmt};
ghost use Rattle.civl_tree.specs.rules.Rules.{Keeps};
ghost use Rattle.civl_tree.specs.rules.Typing.{typing_rules};
ghost use Rattle.civl_firing.specs.values.Values.{is_sort};
ghost use Rattle.civl_meaning.specs.Config.{frame_sorts};
ghost use Rattle.civl_layers.specs.Layered.{IsLayered};
ghost use Rattle.civl_yields.specs.YieldRules.{yield_rules};
ghost use Rattle.civl_terms.specs.Graphs.{sort_at};
ghost use Rattle.civl_terms.specs.Building.{Grows, Lengthens};
ghost use Rattle.civl_terms.specs.Weights.{graph_weight};
ghost use Rattle.civl_conditions.specs.Weights.{lin, linear_globals};
ghost use Rattle.civl_states.specs.formula_parts.Given.{bits_of_sorts, AreVariablesOf};
ghost use Rattle.civl_goals.specs.Failed.{held_before};
ghost use Rattle.civl_goals.specs.Weights.{invariant_weight, note_before_weight, form_weight, weight};
ghost use Rattle.civl_goal_terms.specs.Formulas.{sorts_of, IsViolation};
ghost use Rattle.civl_goal_terms.specs.inner.Outlined.{IsOutlined};
ghost use Rattle.civl_goal_terms.specs.inner.Places.{IsAt};
ghost use Rattle.civl_goal_terms.specs.inner.Sorted.{top_sorts};
ghost use Rattle.civl_goal_terms.specs.inner.Settings.{CanStand, SaysHere, TellsHere, sorts_at, done_by};
ghost use Rattle.civl_goal_terms.specs.inner.Fails.{fails_of, violated_at, IsOwn, IsOwnOf, named_weight};
ghost use Rattle.civl_goal_terms.specs.inner.Given.{here_from};
ghost use Rattle.civl_goal_terms.specs.inner.There.{IsThere};

use crate::assumed::{assumed_at, held_at};
use crate::failing::{begins_at, leads_at, loses_at, unsafe_at};
use crate::places::{At, find};
use crate::settings::Setting;
use crate::sorts::stmt_choices;
use civl_goals::Goal;
use civl_layers::{Layered, program};
use civl_outlines::Outline;
use civl_states::formula_parts::{both, variables};
use civl_states::{Existing, existing_count, store};
use civl_terms::{Id, Memory, Terms};
use civl_tree::{Proc, Program, Sort};
use std::alloc::Global as Alloc;

// ---- variables

/// How many parameters, outputs and locals a procedure has.
pub(crate) fn frame_count(program: &Program, number: u32, proc: &Proc) -> u32
    requires rules { Keeps typing_rules program.now }
    requires proc { slice_get program.now.procs number ≡ Some proc.now }
    ensures { result ≡ length (frame_sorts proc.now) }
{
    (proc.params.len() + proc.outs.len() + proc.locals.len()) as u32
}

/// The terms of the variables of a statement's goals: the globals of the topmost program, the root's parameters, outputs and locals,
/// and the choices of its call. The sorts are those of all variables of the goal, in their order.
pub(crate) fn set(
    alloc: Alloc,
    terms: &mut Terms,
    program: &Program,
    at: &At<'_>,
    sorts: &[Sort],
) -> Result<Setting, Memory>
    requires layered { IsLayered program.now }
    requires at { IsAt program.now at.now }
    requires stand { (rest : ListOf Sorted) × (sorts.now ≡ top_sorts program.now ++ (frame_sorts at.now.proc.now ++ (sorts_at program.now at.now ++ rest))) }
    requires small { length sorts.now < 2 ^ 32 }
    requires limits { All (λ s. IsTrue (is_sort s)) sorts.now }
    requires variables { AreVariablesOf terms.old sorts.now }
    ensures says { IfOk result (λ setting. SaysHere terms.new program.now at.now setting (here_from program.now at.now)) }
    ensures variables { AreVariablesOf terms.new sorts.now }
    ensures weighs { OnOk result (graph_weight terms.new ≤ graph_weight terms.old + bits_of_sorts (top_sorts program.now) + bits_of_sorts (frame_sorts at.now.proc.now) + bits_of_sorts (sorts_at program.now at.now)) }
    ensures lengthens { Lengthens terms.old terms.new }
{
    let which = Existing::Layer(program.layers);
    let globals = store(alloc, terms, program, sorts, which, 0)?;
    let first = existing_count(program, which) as u32;
    let count = frame_count(program, at.root, at.proc);
    let locals = variables(alloc, terms, sorts, first, count)?;
    let behind = first + count;
    let chosen = stmt_choices(program, at.stmt).len() as u32;
    let choices = variables(alloc, terms, sorts, behind, chosen)?;
    Ok(Setting {
        globals,
        locals,
        choices,
    })
}

// ---- at terms

/// Whether the statement fails what the goal tests of it.
fn fails_at(
    alloc: Alloc,
    terms: &mut Terms,
    program: &Program,
    outline: &Outline,
    at: &At<'_>,
    setting: &Setting,
    goal: &Goal,
) -> Result<Id, Memory>
    requires layered { IsLayered program.now }
    requires outlined { IsOutlined program.now outline.now }
    requires at { IsAt program.now at.now }
    requires own { IsOwn at.now goal.now }
    requires can { CanStand terms.old program.now at.now setting.now }
    ensures tells { IfOk result (λ id. TellsHere terms.old terms.new program.now at.now setting.now (done_by program.now at.now (fails_of program.now outline.now goal.now)) id) }
    ensures sorted { IfOk result (λ id. sort_at terms.new id ≡ Some Truth) }
    ensures weighs { OnOk result (graph_weight terms.new ≤ graph_weight terms.old + form_weight program.now at.now.proc.now (out-Stmt at.now.stmt.now) + named_weight program.now outline.now at.now goal.now + 6) }
    ensures grows { Grows terms.old terms.new }
{
    match *goal {
        Goal::Safe(_, _) => {
            let id = unsafe_at(alloc, terms, program, at, setting)?;
            Ok(id)
        }
        Goal::Keep(_, _) => {
            let id = loses_at(alloc, terms, program, outline, at, setting)?;
            Ok(id)
        }
        Goal::Spawn(_, _) => {
            let id = begins_at(alloc, terms, program, outline, at, setting)?;
            Ok(id)
        }
        Goal::Next(_, _) => {
            let id = leads_at(alloc, terms, program, outline, at, setting)?;
            Ok(id)
        }
        _ => unreachable!(),
    }
}

/// Whether what is assumed there is so, and the statement fails what the goal tests of it.
fn goal_at(
    alloc: Alloc,
    terms: &mut Terms,
    program: &Program,
    outline: &Outline,
    at: &At<'_>,
    held: &[u32],
    setting: &Setting,
    goal: &Goal,
) -> Result<Id, Memory>
    requires layered { IsLayered program.now }
    requires outlined { IsOutlined program.now outline.now }
    requires at { IsAt program.now at.now }
    requires own { IsOwn at.now goal.now }
    requires held { held.now ≡ held_before program.now at.now.proc.now at.now.number }
    requires can { CanStand terms.old program.now at.now setting.now }
    ensures tells { IfOk result (λ id. TellsHere terms.old terms.new program.now at.now setting.now (violated_at program.now outline.now at.now (fails_of program.now outline.now goal.now)) id) }
    ensures sorted { IfOk result (λ id. sort_at terms.new id ≡ Some Truth) }
    ensures weighs { OnOk result (graph_weight terms.new ≤ graph_weight terms.old + 2 * invariant_weight program.now outline.now + note_before_weight program.now outline.now at.now.root at.now.number + 4 * lin program.now (linear_globals program.now + length held.now) + form_weight program.now at.now.proc.now (out-Stmt at.now.stmt.now) + named_weight program.now outline.now at.now goal.now + 9) }
    ensures grows { Grows terms.old terms.new }
{
    let assumed = assumed_at(alloc, terms, program, outline, at, held, setting)?;
    let fails = fails_at(alloc, terms, program, outline, at, setting, goal)?;
    let id = both(terms, assumed, fails)?;
    Ok(id)
}

/// The same at the variables of the goal.
fn goal_over(
    alloc: Alloc,
    terms: &mut Terms,
    program: &Program,
    outline: &Outline,
    at: &At<'_>,
    held: &[u32],
    sorts: &[Sort],
    goal: &Goal,
) -> Result<Id, Memory>
    requires layered { IsLayered program.now }
    requires outlined { IsOutlined program.now outline.now }
    requires at { IsAt program.now at.now }
    requires own { IsOwn at.now goal.now }
    requires held { held.now ≡ held_before program.now at.now.proc.now at.now.number }
    requires sorts { sorts.now ≡ sorts_of program.now goal.now }
    requires variables { AreVariablesOf terms.old sorts.now }
    ensures says { IfOk result (λ id. IsViolation terms.new id program.now outline.now goal.now) }
    ensures weighs { OnOk result (graph_weight terms.new ≤ graph_weight terms.old + 4 * weight program.now outline.now goal.now) }
    ensures lengthens { Lengthens terms.old terms.new }
{
    let setting = set(alloc, terms, program, at, sorts)?;
    let id = goal_at(alloc, terms, program, outline, at, held, &setting, goal)?;
    Ok(id)
}

/// The violation of a goal of a statement: that its gate or assert is true, that it keeps the invariant, that what it spawns begins
/// with its first note, or that it leads to the next one.
pub(crate) fn statement_fails(
    alloc: Alloc,
    terms: &mut Terms,
    src: &Layered,
    outline: &Outline,
    sorts: &[Sort],
    goal: &Goal,
    root: u32,
    number: u32,
) -> Result<Id, Memory>
    requires yields { Keeps yield_rules src.now }
    requires outlined { IsOutlined src.now outline.now }
    requires own { IsOwnOf goal.now root number }
    requires there { IsThere src.now goal.now }
    requires sorts { sorts.now ≡ sorts_of src.now goal.now }
    requires variables { AreVariablesOf terms.old sorts.now }
    ensures says { IfOk result (λ id. IsViolation terms.new id src.now outline.now goal.now) }
    ensures weighs { OnOk result (graph_weight terms.new ≤ graph_weight terms.old + 4 * weight src.now outline.now goal.now) }
    ensures lengthens { Lengthens terms.old terms.new }
{
    let program = program(src);
    let at = find(alloc, program, root, number)?;
    let held = held_at(alloc, src, root, number)?;
    let id = goal_over(
        alloc,
        terms,
        program,
        outline,
        &at,
        held.as_slice(),
        sorts,
        goal,
    )?;
    Ok(id)
}
