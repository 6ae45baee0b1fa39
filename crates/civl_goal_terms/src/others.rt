// The goals that calls keep the notes of other threads.
ghost use Rattle.std.specs.Prelude.{◌≡◌, ◌+◌, ◌*◌, ◌≤◌, ◌++◌, ◌&&◌, length, Some, IfOk, OnOk};
ghost use Rattle.civl_tree.specs.declared.expr.Sort.TheVariants.{Bool as Truth};
ghost use Rattle.civl_tree.specs.declared.stmt.Stmt.{out-Stmt};
ghost use Rattle.civl_tree.specs.rules.Rules.{Keeps};
ghost use Rattle.civl_meaning.specs.Permissions.{pairwise_disjoint};
ghost use Rattle.civl_meaning.specs.Config.{frame_sorts};
ghost use Rattle.civl_layers.specs.Layered.{IsLayered};
ghost use Rattle.civl_yields.specs.YieldRules.{yield_rules};
ghost use Rattle.civl_terms.specs.Graphs.{sort_at};
ghost use Rattle.civl_terms.specs.Building.{Grows, Lengthens};
ghost use Rattle.civl_terms.specs.Weights.{graph_weight};
ghost use Rattle.civl_actions.specs.Scopes.{AreOf};
ghost use Rattle.civl_conditions.specs.Permissions.{in_store, of_held};
ghost use Rattle.civl_conditions.specs.Weights.{lin, linear_globals};
ghost use Rattle.civl_states.specs.formula_parts.Given.{AreVariablesOf};
ghost use Rattle.civl_goals.specs.declared.goal.Goal.TheVariants as goal;
ghost use Rattle.civl_goals.specs.Outlines.{invariant_holds, note_holds};
ghost use Rattle.civl_goals.specs.Failed.{held_before};
ghost use Rattle.civl_goals.specs.Weights.{invariant_weight, note_before_weight, form_weight, weight};
ghost use Rattle.civl_goal_terms.specs.Formulas.{sorts_of, IsViolation};
ghost use Rattle.civl_goal_terms.specs.inner.Outlined.{IsOutlined};
ghost use Rattle.civl_goal_terms.specs.inner.There.{IsCall, IsThere};
ghost use Rattle.civl_goal_terms.specs.inner.Places.{IsAt};
ghost use Rattle.civl_goal_terms.specs.inner.Settings.{CanStand, frame_at, done_by};
ghost use Rattle.civl_goal_terms.specs.inner.Others.{IsBeside, TellsBeside, other_frame, loses_note, violated_beside};

use crate::apart::{push_held, words_apart};
use crate::assumed::{held_at, said_at};
use crate::notes::note_at;
use crate::places::{At, find};
use crate::settings::Setting;
use crate::statements::{frame_count, set};
use crate::steps::passed;
use civl_layers::{Layered, program};
use civl_moves::without;
use civl_outlines::Outline;
use civl_states::formula_parts::{both, variables};
use civl_terms::{Id, Memory, Terms};
use civl_tree::{List, Proc, Program, Sort};
use std::alloc::Global as Alloc;

/// A statement of a root that another thread is in.
#[derive(Clone, Copy)]
pub(crate) struct Beside<'a> {
    pub root: u32,
    pub proc: &'a Proc,
    pub number: u32,
}

/// Whether the call fires, and then the note before the other statement isn't true.
fn loses_note(
    alloc: Alloc,
    terms: &mut Terms,
    program: &Program,
    outline: &Outline,
    at: &At<'_>,
    setting: &Setting,
    other: &Beside<'_>,
    locals: &List<Id>,
) -> Result<Id, Memory>
    requires layered { IsLayered program.now }
    requires outlined { IsOutlined program.now outline.now }
    requires at { IsAt program.now at.now }
    requires call { IsCall (out-Stmt at.now.stmt.now) }
    requires can { CanStand terms.old program.now at.now setting.now }
    requires other { IsBeside program.now other.now }
    requires locals { AreOf terms.old locals.now (frame_sorts other.now.proc.now) }
    ensures tells { IfOk result (λ id. TellsBeside terms.old terms.new program.now at.now setting.now other.now locals.now (λ here l. done_by program.now at.now (loses_note program.now outline.now (other_frame other.now l)) here) id) }
    ensures sorted { IfOk result (λ id. sort_at terms.new id ≡ Some Truth) }
    ensures weighs { OnOk result (graph_weight terms.new ≤ graph_weight terms.old + form_weight program.now at.now.proc.now (out-Stmt at.now.stmt.now) + note_before_weight program.now outline.now other.now.root other.now.number + 6) }
    ensures grows { Grows terms.old terms.new }
{
    let sweep = passed(alloc, terms, program, at, setting)?;
    let globals = &sweep.globals;
    let note = note_at(
        alloc,
        terms,
        program,
        outline,
        other.root,
        other.proc,
        other.number,
        globals,
        locals,
    )?;
    let id = without(terms, sweep.live, note)?;
    Ok(id)
}

/// Whether all holds and both notes are true.
fn both_said(
    alloc: Alloc,
    terms: &mut Terms,
    program: &Program,
    outline: &Outline,
    at: &At<'_>,
    setting: &Setting,
    other: &Beside<'_>,
    locals: &List<Id>,
) -> Result<Id, Memory>
    requires layered { IsLayered program.now }
    requires outlined { IsOutlined program.now outline.now }
    requires at { IsAt program.now at.now }
    requires can { CanStand terms.old program.now at.now setting.now }
    requires other { IsBeside program.now other.now }
    requires locals { AreOf terms.old locals.now (frame_sorts other.now.proc.now) }
    ensures tells { IfOk result (λ id. TellsBeside terms.old terms.new program.now at.now setting.now other.now locals.now (λ here l. (invariant_holds program.now outline.now here.store && note_holds program.now outline.now here.store (frame_at at.now here)) && note_holds program.now outline.now here.store (other_frame other.now l)) id) }
    ensures sorted { IfOk result (λ id. sort_at terms.new id ≡ Some Truth) }
    ensures weighs { OnOk result (graph_weight terms.new ≤ graph_weight terms.old + 2 * invariant_weight program.now outline.now + note_before_weight program.now outline.now at.now.root at.now.number + note_before_weight program.now outline.now other.now.root other.now.number + 2) }
    ensures grows { Grows terms.old terms.new }
{
    let said = said_at(alloc, terms, program, outline, at, setting)?;
    let globals = &setting.globals;
    let note = note_at(
        alloc,
        terms,
        program,
        outline,
        other.root,
        other.proc,
        other.number,
        globals,
        locals,
    )?;
    let id = both(terms, said, note)?;
    Ok(id)
}

/// Whether what the linear globals and the held locals of both carry is pairwise disjoint.
fn both_apart(
    alloc: Alloc,
    terms: &mut Terms,
    program: &Program,
    at: &At<'_>,
    held: &[u32],
    setting: &Setting,
    other: &Beside<'_>,
    other_held: &[u32],
    locals: &List<Id>,
) -> Result<Id, Memory>
    requires layered { IsLayered program.now }
    requires at { IsAt program.now at.now }
    requires held { held.now ≡ held_before program.now at.now.proc.now at.now.number }
    requires can { CanStand terms.old program.now at.now setting.now }
    requires other { IsBeside program.now other.now }
    requires other_held { other_held.now ≡ held_before program.now other.now.proc.now other.now.number }
    requires locals { AreOf terms.old locals.now (frame_sorts other.now.proc.now) }
    ensures tells { IfOk result (λ id. TellsBeside terms.old terms.new program.now at.now setting.now other.now locals.now (λ here l. pairwise_disjoint (in_store program.now here.store ++ (of_held held.now here.locals ++ of_held other_held.now l))) id) }
    ensures sorted { IfOk result (λ id. sort_at terms.new id ≡ Some Truth) }
    ensures weighs { OnOk result (graph_weight terms.new ≤ graph_weight terms.old + 4 * lin program.now (linear_globals program.now + (length held.now + length other_held.now))) }
    ensures grows { Grows terms.old terms.new }
{
    let mut words = Vec::new(alloc);
    push_held(&mut words, setting.locals.as_slice(), held)?;
    push_held(&mut words, locals.as_slice(), other_held)?;
    let id = words_apart(alloc, terms, program, &setting.globals, words.as_slice())?;
    Ok(id)
}

/// Whether what is assumed of both is so, and the call makes the other's note false.
fn goal_beside(
    alloc: Alloc,
    terms: &mut Terms,
    program: &Program,
    outline: &Outline,
    at: &At<'_>,
    held: &[u32],
    setting: &Setting,
    other: &Beside<'_>,
    other_held: &[u32],
    locals: &List<Id>,
) -> Result<Id, Memory>
    requires layered { IsLayered program.now }
    requires outlined { IsOutlined program.now outline.now }
    requires at { IsAt program.now at.now }
    requires call { IsCall (out-Stmt at.now.stmt.now) }
    requires held { held.now ≡ held_before program.now at.now.proc.now at.now.number }
    requires can { CanStand terms.old program.now at.now setting.now }
    requires other { IsBeside program.now other.now }
    requires other_held { other_held.now ≡ held_before program.now other.now.proc.now other.now.number }
    requires locals { AreOf terms.old locals.now (frame_sorts other.now.proc.now) }
    ensures tells { IfOk result (λ id. TellsBeside terms.old terms.new program.now at.now setting.now other.now locals.now (violated_beside program.now outline.now at.now other.now) id) }
    ensures sorted { IfOk result (λ id. sort_at terms.new id ≡ Some Truth) }
    ensures weighs { OnOk result (graph_weight terms.new ≤ graph_weight terms.old + 2 * invariant_weight program.now outline.now + note_before_weight program.now outline.now at.now.root at.now.number + 2 * note_before_weight program.now outline.now other.now.root other.now.number + 4 * lin program.now (linear_globals program.now + (length held.now + length other_held.now)) + form_weight program.now at.now.proc.now (out-Stmt at.now.stmt.now) + 10) }
    ensures grows { Grows terms.old terms.new }
{
    let said = both_said(alloc, terms, program, outline, at, setting, other, locals)?;
    let apart = both_apart(
        alloc, terms, program, at, held, setting, other, other_held, locals,
    )?;
    let assumed = both(terms, said, apart)?;
    let lost = loses_note(alloc, terms, program, outline, at, setting, other, locals)?;
    let id = both(terms, assumed, lost)?;
    Ok(id)
}

/// The same at the variables of the goal.
fn other_over(
    alloc: Alloc,
    terms: &mut Terms,
    program: &Program,
    outline: &Outline,
    at: &At<'_>,
    held: &[u32],
    other: &Beside<'_>,
    other_held: &[u32],
    sorts: &[Sort],
) -> Result<Id, Memory>
    requires layered { IsLayered program.now }
    requires outlined { IsOutlined program.now outline.now }
    requires at { IsAt program.now at.now }
    requires call { IsCall (out-Stmt at.now.stmt.now) }
    requires held { held.now ≡ held_before program.now at.now.proc.now at.now.number }
    requires other { IsBeside program.now other.now }
    requires other_held { other_held.now ≡ held_before program.now other.now.proc.now other.now.number }
    requires sorts { sorts.now ≡ sorts_of program.now (goal.Other at.now.root at.now.number other.now.root other.now.number) }
    requires variables { AreVariablesOf terms.old sorts.now }
    ensures says { IfOk result (λ id. IsViolation terms.new id program.now outline.now (goal.Other at.now.root at.now.number other.now.root other.now.number)) }
    ensures weighs { OnOk result (graph_weight terms.new ≤ graph_weight terms.old + 4 * weight program.now outline.now (goal.Other at.now.root at.now.number other.now.root other.now.number)) }
    ensures lengthens { Lengthens terms.old terms.new }
{
    let setting = set(alloc, terms, program, at, sorts)?;
    let count = frame_count(program, other.root, other.proc);
    let all = sorts.len() as u32;
    let first = all - count;
    let locals = variables(alloc, terms, sorts, first, count)?;
    let id = goal_beside(
        alloc, terms, program, outline, at, held, &setting, other, other_held, &locals,
    )?;
    Ok(id)
}

/// The violation of the goal that a call keeps the note of another thread.
pub(crate) fn other_fails(
    alloc: Alloc,
    terms: &mut Terms,
    src: &Layered,
    outline: &Outline,
    sorts: &[Sort],
    root: u32,
    number: u32,
    other: u32,
    other_number: u32,
) -> Result<Id, Memory>
    requires yields { Keeps yield_rules src.now }
    requires outlined { IsOutlined src.now outline.now }
    requires there { IsThere src.now (goal.Other root number other other_number) }
    requires sorts { sorts.now ≡ sorts_of src.now (goal.Other root number other other_number) }
    requires variables { AreVariablesOf terms.old sorts.now }
    ensures says { IfOk result (λ id. IsViolation terms.new id src.now outline.now (goal.Other root number other other_number)) }
    ensures weighs { OnOk result (graph_weight terms.new ≤ graph_weight terms.old + 4 * weight src.now outline.now (goal.Other root number other other_number)) }
    ensures lengthens { Lengthens terms.old terms.new }
{
    let program = program(src);
    let at = find(alloc, program, root, number)?;
    let held = held_at(alloc, src, root, number)?;
    let other_held = held_at(alloc, src, other, other_number)?;
    let beside = Beside {
        root: other,
        proc: program.procs.get(other as usize),
        number: other_number,
    };
    let id = other_over(
        alloc,
        terms,
        program,
        outline,
        &at,
        held.as_slice(),
        &beside,
        other_held.as_slice(),
        sorts,
    )?;
    Ok(id)
}
