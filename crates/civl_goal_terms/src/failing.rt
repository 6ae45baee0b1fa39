// What statements do against the goals.
ghost use Rattle.std.specs.Prelude.{◌≡◌, ◌+◌, ◌*◌, ◌≤◌, Bool, None, Some, if◌then◌else◌, IfOk, OnOk};
ghost use Rattle.civl_tree.specs.declared.expr.Sort.TheVariants.{Bool as Truth};
ghost use Rattle.civl_tree.specs.declared.stmt.Stmt.{out-Stmt};
ghost use Rattle.civl_tree.specs.declared.stmt.Stmt.TheOpen.{Spawn};
ghost use Rattle.civl_layers.specs.Layered.{IsLayered};
ghost use Rattle.civl_terms.specs.Graphs.{sort_at};
ghost use Rattle.civl_terms.specs.Building.{Grows};
ghost use Rattle.civl_terms.specs.Weights.{graph_weight};
ghost use Rattle.civl_states.specs.formula_parts.Said.{Env, IsTest};
ghost use Rattle.civl_goals.specs.Failed.{loses_invariant, begins_badly, leads_astray};
ghost use Rattle.civl_goals.specs.Outlines.{note_holds};
ghost use Rattle.civl_goals.specs.Weights.{invariant_weight, note_before_weight, form_weight, form_begins, form_reaches, once, summed_at};
ghost use Rattle.civl_goal_terms.specs.inner.Outlined.{IsOutlined};
ghost use Rattle.civl_goal_terms.specs.inner.Places.{IsAt, fork_in};
ghost use Rattle.civl_goal_terms.specs.inner.Settings.{Here, CanStand, SaysHere, TellsHere, done_by};
ghost use Rattle.civl_goal_terms.specs.inner.Told.{frame};
ghost use Rattle.civl_goal_terms.specs.inner.Fails.{is_unsafe};
ghost use Rattle.civl_goal_terms.specs.inner.There.{IsCall, IsSpawn};

use crate::frames::begins_astray;
use crate::holds::holds_at;
use crate::notes::note_at;
use crate::places::{At, Fork, forked};
use crate::settings::Setting;
use crate::steps::passed;
use crate::tests::chosen;
use civl_moves::{body_term, body_terms, without};
use civl_outlines::Outline;
use civl_states::formula_parts::negated;
use civl_terms::{Id, Memory, Terms};
use civl_tree::{Expr, List, Name, Program, Stmt};
use std::alloc::Global as Alloc;

/// Whether the gate of a call, or an assert, is false.
pub(crate) fn unsafe_at(
    alloc: Alloc,
    terms: &mut Terms,
    program: &Program,
    at: &At<'_>,
    setting: &Setting,
) -> Result<Id, Memory>
    requires layered { IsLayered program.now }
    requires at { IsAt program.now at.now }
    requires can { CanStand terms.old program.now at.now setting.now }
    ensures tells { IfOk result (λ id. TellsHere terms.old terms.new program.now at.now setting.now (done_by program.now at.now (is_unsafe program.now at.now.root)) id) }
    ensures sorted { IfOk result (λ id. sort_at terms.new id ≡ Some Truth) }
    ensures weighs { OnOk result (graph_weight terms.new ≤ graph_weight terms.old + form_weight program.now at.now.proc.now (out-Stmt at.now.stmt.now) + 5) }
    ensures grows { Grows terms.old terms.new }
{
    let sweep = passed(alloc, terms, program, at, setting)?;
    let id = negated(terms, sweep.safe)?;
    Ok(id)
}

/// Whether a call fires, and then some hold isn't true.
pub(crate) fn loses_at(
    alloc: Alloc,
    terms: &mut Terms,
    program: &Program,
    outline: &Outline,
    at: &At<'_>,
    setting: &Setting,
) -> Result<Id, Memory>
    requires layered { IsLayered program.now }
    requires outlined { IsOutlined program.now outline.now }
    requires at { IsAt program.now at.now }
    requires call { IsCall (out-Stmt at.now.stmt.now) }
    requires can { CanStand terms.old program.now at.now setting.now }
    ensures tells { IfOk result (λ id. TellsHere terms.old terms.new program.now at.now setting.now (done_by program.now at.now (loses_invariant program.now outline.now)) id) }
    ensures sorted { IfOk result (λ id. sort_at terms.new id ≡ Some Truth) }
    ensures weighs { OnOk result (graph_weight terms.new ≤ graph_weight terms.old + form_weight program.now at.now.proc.now (out-Stmt at.now.stmt.now) + 2 * invariant_weight program.now outline.now + 6) }
    ensures grows { Grows terms.old terms.new }
{
    let sweep = passed(alloc, terms, program, at, setting)?;
    let holds = holds_at(terms, program, outline, &sweep.globals)?;
    let id = without(terms, sweep.live, holds)?;
    Ok(id)
}

/// Whether a spawned procedure begins where its first note isn't true.
pub(crate) fn spawns_at(
    alloc: Alloc,
    terms: &mut Terms,
    program: &Program,
    outline: &Outline,
    at: &At<'_>,
    callee: &Name,
    args: &List<Expr>,
    setting: &Setting,
) -> Result<Id, Memory>
    requires layered { IsLayered program.now }
    requires outlined { IsOutlined program.now outline.now }
    requires at { IsAt program.now at.now }
    requires form { out-Stmt at.now.stmt.now ≡ Spawn callee.now args.now }
    requires can { CanStand terms.old program.now at.now setting.now }
    ensures tells { IfOk result (λ id. TellsHere terms.old terms.new program.now at.now setting.now (done_by program.now at.now (begins_badly program.now outline.now)) id) }
    ensures sorted { IfOk result (λ id. sort_at terms.new id ≡ Some Truth) }
    ensures weighs { OnOk result (graph_weight terms.new ≤ graph_weight terms.old + form_weight program.now at.now.proc.now (out-Stmt at.now.stmt.now) + form_begins program.now outline.now (out-Stmt at.now.stmt.now) + 1) }
    ensures grows { Grows terms.old terms.new }
{
    let ids = body_terms(
        alloc,
        terms,
        program,
        at.proc,
        setting.locals.as_slice(),
        args.as_slice(),
    )?;
    let id = begins_astray(
        alloc,
        terms,
        program,
        outline,
        callee,
        &setting.globals,
        ids,
    )?;
    Ok(id)
}

/// The same of a statement that is a spawn.
pub(crate) fn begins_at(
    alloc: Alloc,
    terms: &mut Terms,
    program: &Program,
    outline: &Outline,
    at: &At<'_>,
    setting: &Setting,
) -> Result<Id, Memory>
    requires layered { IsLayered program.now }
    requires outlined { IsOutlined program.now outline.now }
    requires at { IsAt program.now at.now }
    requires spawn { IsSpawn (out-Stmt at.now.stmt.now) }
    requires can { CanStand terms.old program.now at.now setting.now }
    ensures tells { IfOk result (λ id. TellsHere terms.old terms.new program.now at.now setting.now (done_by program.now at.now (begins_badly program.now outline.now)) id) }
    ensures sorted { IfOk result (λ id. sort_at terms.new id ≡ Some Truth) }
    ensures weighs { OnOk result (graph_weight terms.new ≤ graph_weight terms.old + form_weight program.now at.now.proc.now (out-Stmt at.now.stmt.now) + form_begins program.now outline.now (out-Stmt at.now.stmt.now) + 1) }
    ensures grows { Grows terms.old terms.new }
{
    match at.stmt {
        Stmt::Spawn(callee, args) => {
            spawns_at(alloc, terms, program, outline, at, callee, args, setting)
        }
        _ => unreachable!(),
    }
}

/// Whether a statement that doesn't branch leads where the note isn't true.
fn passes_astray(
    alloc: Alloc,
    terms: &mut Terms,
    program: &Program,
    outline: &Outline,
    at: &At<'_>,
    setting: &Setting,
) -> Result<Id, Memory>
    requires layered { IsLayered program.now }
    requires outlined { IsOutlined program.now outline.now }
    requires at { IsAt program.now at.now }
    requires plain { fork_in at.now.number at.now.next (out-Stmt at.now.stmt.now) ≡ None }
    requires can { CanStand terms.old program.now at.now setting.now }
    ensures tells { IfOk result (λ id. TellsHere terms.old terms.new program.now at.now setting.now (done_by program.now at.now (leads_astray program.now outline.now)) id) }
    ensures sorted { IfOk result (λ id. sort_at terms.new id ≡ Some Truth) }
    ensures weighs { OnOk result (graph_weight terms.new ≤ graph_weight terms.old + form_weight program.now at.now.proc.now (out-Stmt at.now.stmt.now) + note_before_weight program.now outline.now at.now.root at.now.next + 6) }
    ensures grows { Grows terms.old terms.new }
{
    let sweep = passed(alloc, terms, program, at, setting)?;
    let globals = &sweep.globals;
    let locals = &sweep.locals;
    let note = note_at(
        alloc, terms, program, outline, at.root, at.proc, at.next, globals, locals,
    )?;
    let id = without(terms, sweep.live, note)?;
    Ok(id)
}

/// Whether the note is true at the first place where a test is, and at the second where it isn't.
fn either_note(
    alloc: Alloc,
    terms: &mut Terms,
    program: &Program,
    outline: &Outline,
    at: &At<'_>,
    setting: &Setting,
    test: Id,
    yes: u32,
    no: u32,
) -> Result<Id, Memory>
    requires layered { IsLayered program.now }
    requires outlined { IsOutlined program.now outline.now }
    requires at { IsAt program.now at.now }
    requires can { CanStand terms.old program.now at.now setting.now }
    requires test { sort_at terms.old test ≡ Some Truth }
    ensures tells { IfOk result (λ id. (t : Env → Bool) (h : Env → Here) → IsTest terms.old test t → SaysHere terms.old program.now at.now setting.now h → IsTest terms.new id (λ env. note_holds program.now outline.now (h env).store (frame at.now.root (if t env then yes else no) (h env).locals))) }
    ensures sorted { IfOk result (λ id. sort_at terms.new id ≡ Some Truth) }
    ensures weighs { OnOk result (graph_weight terms.new ≤ graph_weight terms.old + summed_at (note_before_weight program.now outline.now at.now.root) (once yes no) + 4) }
    ensures grows { Grows terms.old terms.new }
{
    let globals = &setting.globals;
    let locals = &setting.locals;
    let first = note_at(
        alloc, terms, program, outline, at.root, at.proc, yes, globals, locals,
    )?;
    if yes == no {
        return Ok(first);
    }
    let second = note_at(
        alloc, terms, program, outline, at.root, at.proc, no, globals, locals,
    )?;
    let id = chosen(terms, test, first, second)?;
    Ok(id)
}

/// Whether an `if` or a loop leads where the note isn't true.
fn forks_astray(
    alloc: Alloc,
    terms: &mut Terms,
    program: &Program,
    outline: &Outline,
    at: &At<'_>,
    fork: Fork<'_>,
    setting: &Setting,
) -> Result<Id, Memory>
    requires layered { IsLayered program.now }
    requires outlined { IsOutlined program.now outline.now }
    requires at { IsAt program.now at.now }
    requires fork { fork_in at.now.number at.now.next (out-Stmt at.now.stmt.now) ≡ Some (fork.condition.now, (fork.yes, fork.no)) }
    requires can { CanStand terms.old program.now at.now setting.now }
    ensures tells { IfOk result (λ id. TellsHere terms.old terms.new program.now at.now setting.now (done_by program.now at.now (leads_astray program.now outline.now)) id) }
    ensures sorted { IfOk result (λ id. sort_at terms.new id ≡ Some Truth) }
    ensures weighs { OnOk result (graph_weight terms.new ≤ graph_weight terms.old + form_weight program.now at.now.proc.now (out-Stmt at.now.stmt.now) + summed_at (note_before_weight program.now outline.now at.now.root) (form_reaches at.now.number at.now.next (out-Stmt at.now.stmt.now)) + 5) }
    ensures grows { Grows terms.old terms.new }
{
    let locals = setting.locals.as_slice();
    let test = body_term(alloc, terms, program, at.proc, locals, fork.condition)?;
    let note = either_note(
        alloc, terms, program, outline, at, setting, test, fork.yes, fork.no,
    )?;
    let id = negated(terms, note)?;
    Ok(id)
}

/// Whether a statement leads where the note isn't true.
pub(crate) fn leads_at(
    alloc: Alloc,
    terms: &mut Terms,
    program: &Program,
    outline: &Outline,
    at: &At<'_>,
    setting: &Setting,
) -> Result<Id, Memory>
    requires layered { IsLayered program.now }
    requires outlined { IsOutlined program.now outline.now }
    requires at { IsAt program.now at.now }
    requires can { CanStand terms.old program.now at.now setting.now }
    ensures tells { IfOk result (λ id. TellsHere terms.old terms.new program.now at.now setting.now (done_by program.now at.now (leads_astray program.now outline.now)) id) }
    ensures sorted { IfOk result (λ id. sort_at terms.new id ≡ Some Truth) }
    ensures weighs { OnOk result (graph_weight terms.new ≤ graph_weight terms.old + form_weight program.now at.now.proc.now (out-Stmt at.now.stmt.now) + summed_at (note_before_weight program.now outline.now at.now.root) (form_reaches at.now.number at.now.next (out-Stmt at.now.stmt.now)) + 6) }
    ensures grows { Grows terms.old terms.new }
{
    match forked(at) {
        Some(fork) => {
            let id = forks_astray(alloc, terms, program, outline, at, fork, setting)?;
            Ok(id)
        }
        None => {
            let id = passes_astray(alloc, terms, program, outline, at, setting)?;
            Ok(id)
        }
    }
}
