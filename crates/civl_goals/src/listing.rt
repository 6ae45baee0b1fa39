// The goals of an outline, in their order.
ghost use Rattle.std.specs.Prelude.{◌≡◌, ◌<◌, ◌^◌, ◌++◌, ◌∷◌, ◌&&◌, [], length, map, is_some, if◌then◌else◌, OnOk, IfOk};
ghost use Rattle.std.specs.List.{list_any};
ghost use Rattle.civl_tree.specs.declared.stmt.Stmt.{out-Stmt};
ghost use Rattle.civl_tree.specs.Numbering.{sizes_of};
ghost use Rattle.civl_tree.specs.Numbered.{IsNumbered};
ghost use Rattle.civl_tree.specs.rules.Names.{has_name, targets_of};
ghost use Rattle.civl_tree.specs.rules.Width.{is_linear};
ghost use Rattle.civl_linear.specs.Modes.{is_given};
ghost use Rattle.civl_conditions.specs.Steps.{each_at};
ghost use Rattle.civl_goals.specs.declared.goal.Goal.TheVariants as goal;
ghost use Rattle.civl_goals.specs.Outlines.{written_before};
ghost use Rattle.civl_goals.specs.Listed.{begins, thread_goal, thread_goals, moves_permissions, linear_goal, linear_goals, noted_at, noted_in, noted_of, noted, form_goals, stmt_goals, root_goals, proc_goals, statement_goals, goals};
ghost use Rattle.civl_goals.specs.Spots.{spots_in, with_notes};

use crate::goal::Goal;
use crate::roots::{begins, is_root};
use crate::rules::proc_item;
use crate::spots::{Spot, Spots, spots_of};
use civl_layers::{Layered, program};
use civl_linear::is_given;
use civl_names::walks::statements;
use civl_outlines::Outline;
use civl_tree::{Action, List, Memory, Name, Param, Proc, Program, Stmt, Thread};
use civl_types::{is_linear, is_updated};
use std::alloc::Global;

// ---- threads

fn push_thread(
    list: &mut List<Goal>,
    program: &Program,
    number: u32,
    thread: &Thread,
) -> Result<(), Memory>
    ensures { OnOk result (list.new ≡ list.old ++ thread_goal program.now number thread.now) }
{
    if begins(program, &thread.callee) {
        list.push(Goal::Thread(number))?;
    }
    Ok(())
}

fn push_threads(list: &mut List<Goal>, program: &Program) -> Result<(), Memory>
    requires { IsNumbered program.now }
    ensures { OnOk result (list.new ≡ list.old ++ thread_goals program.now) }
{
    let threads = program.threads.as_slice();
    for (at, thread) in threads.iter().enumerate() {
        push_thread(list, program, at as u32, thread)?;
    }
    Ok(())
}

// ---- actions of the top layer

/// Whether a parameter is linear.
fn has_linear(params: &[Param]) -> bool
    ensures { result ≡ list_any (λ p. is_linear p.mode) params.now }
{
    for param in params {
        if is_linear(param.mode) {
            return true;
        }
    }
    false
}

/// Whether an output is given.
fn has_given(outs: &[Param]) -> bool
    ensures { result ≡ list_any (λ p. is_given p.mode) outs.now }
{
    for out in outs {
        if is_given(out.mode) {
            return true;
        }
    }
    false
}

/// Whether the action updates a linear global.
fn updates_linear(program: &Program, action: &Action) -> bool
    ensures { result ≡ list_any (λ g. g.linear && has_name (targets_of action.now) g.name) program.now.globals }
{
    for global in program.globals.as_slice() {
        if global.linear && is_updated(action.updates.as_slice(), &global.name) {
            return true;
        }
    }
    false
}

/// Whether the action takes, gives or moves permissions.
fn moves_permissions(program: &Program, action: &Action) -> bool
    ensures { result ≡ moves_permissions program.now action.now }
{
    has_linear(action.params.as_slice())
        || has_given(action.outs.as_slice())
        || updates_linear(program, action)
}

fn push_linear(
    list: &mut List<Goal>,
    program: &Program,
    number: u32,
    action: &Action,
) -> Result<(), Memory>
    ensures { OnOk result (list.new ≡ list.old ++ linear_goal program.now number action.now) }
{
    if action.first == program.layers && moves_permissions(program, action) {
        list.push(Goal::Linear(number))?;
    }
    Ok(())
}

fn push_linears(list: &mut List<Goal>, program: &Program) -> Result<(), Memory>
    requires { IsNumbered program.now }
    ensures { OnOk result (list.new ≡ list.old ++ linear_goals program.now) }
{
    let actions = program.actions.as_slice();
    for (at, action) in actions.iter().enumerate() {
        push_linear(list, program, at as u32, action)?;
    }
    Ok(())
}

// ---- statements with a note

/// Whether a note is written before a statement of the procedure at this place.
fn is_noted(
    program: &Program,
    outline: &Outline,
    spots: &Spots,
    place: usize,
    statement: u32,
) -> bool
    requires numbered { IsNumbered program.now }
    requires place { place < length program.now.procs }
    requires spots { spots_in spots.now ≡ with_notes [] outline.now.notes }
    ensures { result ≡ is_some (written_before program.now outline.now place statement) }
{
    let item = proc_item(program, place);
    spots.has(Spot { item, statement })
}

/// Adds the statements of a procedure before which a note is written.
fn add_noted_among(
    list: &mut Vec<(u32, u32)>,
    program: &Program,
    outline: &Outline,
    spots: &Spots,
    place: usize,
    flat: &[&Stmt],
) -> Result<(), Memory>
    requires numbered { IsNumbered program.now }
    requires place { place < length program.now.procs }
    requires statements { length flat.now < 2 ^ 32 }
    requires spots { spots_in spots.now ≡ with_notes [] outline.now.notes }
    ensures { OnOk result (list.new.items ≡ list.old.items ++ each_at (noted_at program.now outline.now place) 0 (map (λ stmt. stmt.now) flat.now)) }
{
    for (at, _stmt) in flat.iter().enumerate() {
        let statement = at as u32;
        if is_noted(program, outline, spots, place, statement) {
            list.push((place as u32, statement))?;
        }
    }
    Ok(())
}

/// The same of all its statements.
fn add_noted(
    alloc: Global,
    list: &mut Vec<(u32, u32)>,
    program: &Program,
    outline: &Outline,
    spots: &Spots,
    place: usize,
    proc: &Proc,
) -> Result<(), Memory>
    requires numbered { IsNumbered program.now }
    requires place { place < length program.now.procs }
    requires statements { sizes_of proc.now.body < 2 ^ 32 }
    requires spots { spots_in spots.now ≡ with_notes [] outline.now.notes }
    ensures { OnOk result (list.new.items ≡ list.old.items ++ noted_in program.now outline.now place proc.now) }
{
    let flat = statements(alloc, &proc.body)?;
    add_noted_among(list, program, outline, spots, place, flat.as_slice())
}

/// The same where the procedure is a root.
fn add_noted_of(
    alloc: Global,
    list: &mut Vec<(u32, u32)>,
    program: &Program,
    outline: &Outline,
    spots: &Spots,
    place: usize,
    proc: &Proc,
) -> Result<(), Memory>
    requires numbered { IsNumbered program.now }
    requires place { place < length program.now.procs }
    requires statements { sizes_of proc.now.body < 2 ^ 32 }
    requires spots { spots_in spots.now ≡ with_notes [] outline.now.notes }
    ensures { OnOk result (list.new.items ≡ list.old.items ++ noted_of program.now outline.now place proc.now) }
{
    if is_root(proc) {
        add_noted(alloc, list, program, outline, spots, place, proc)?;
    }
    Ok(())
}

/// The statements of roots before which a note is written.
fn noted(alloc: Global, program: &Program, outline: &Outline) -> Result<Vec<(u32, u32)>, Memory>
    requires { IsNumbered program.now }
    ensures { IfOk result (λ found. found.items ≡ noted program.now outline.now) }
{
    let spots = spots_of(alloc, outline.notes.as_slice())?;
    let mut found = Vec::new(alloc);
    let procs = program.procs.as_slice();
    for (place, proc) in procs.iter().enumerate() {
        add_noted_of(alloc, &mut found, program, outline, &spots, place, proc)?;
    }
    Ok(found)
}

// ---- statements of roots

/// A call keeps the notes before these statements.
fn push_others(
    list: &mut List<Goal>,
    others: &[(u32, u32)],
    proc: u32,
    statement: u32,
) -> Result<(), Memory>
    ensures { OnOk result (list.new ≡ list.old ++ map (λ q. goal.Other proc statement q.0 q.1) others.now) }
{
    for (other, at) in others {
        list.push(Goal::Other(proc, statement, *other, *at))?;
    }
    Ok(())
}

fn push_call(
    list: &mut List<Goal>,
    others: &[(u32, u32)],
    proc: u32,
    statement: u32,
) -> Result<(), Memory>
    ensures { OnOk result (list.new ≡ list.old ++ goal.Safe proc statement ∷ goal.Keep proc statement ∷ goal.Next proc statement ∷ map (λ q. goal.Other proc statement q.0 q.1) others.now) }
{
    list.push(Goal::Safe(proc, statement))?;
    list.push(Goal::Keep(proc, statement))?;
    list.push(Goal::Next(proc, statement))?;
    push_others(list, others, proc, statement)?;
    Ok(())
}

fn push_assert(list: &mut List<Goal>, proc: u32, statement: u32) -> Result<(), Memory>
    ensures { OnOk result (list.new ≡ list.old ++ goal.Safe proc statement ∷ goal.Next proc statement ∷ []) }
{
    list.push(Goal::Safe(proc, statement))?;
    list.push(Goal::Next(proc, statement))?;
    Ok(())
}

fn push_spawn(
    list: &mut List<Goal>,
    program: &Program,
    callee: &Name,
    proc: u32,
    statement: u32,
) -> Result<(), Memory>
    ensures { OnOk result (list.new ≡ list.old ++ ((if begins program.now callee.now then goal.Spawn proc statement ∷ [] else []) ++ goal.Next proc statement ∷ [])) }
{
    if begins(program, callee) {
        list.push(Goal::Spawn(proc, statement))?;
    }
    list.push(Goal::Next(proc, statement))?;
    Ok(())
}

fn push_next(list: &mut List<Goal>, proc: u32, statement: u32) -> Result<(), Memory>
    ensures { OnOk result (list.new ≡ list.old ++ goal.Next proc statement ∷ []) }
{
    list.push(Goal::Next(proc, statement))?;
    Ok(())
}

/// The goals of a statement with these numbers.
fn push_stmt(
    list: &mut List<Goal>,
    program: &Program,
    others: &[(u32, u32)],
    proc: u32,
    statement: u32,
    stmt: &Stmt,
) -> Result<(), Memory>
    ensures { OnOk result (list.new ≡ list.old ++ form_goals program.now others.now proc statement (out-Stmt stmt.now)) }
{
    match stmt {
        Stmt::Call(_, _, _) => push_call(list, others, proc, statement),
        Stmt::Assert(_) => push_assert(list, proc, statement),
        Stmt::Spawn(callee, _) => push_spawn(list, program, callee, proc, statement),
        Stmt::Assign(_, _) => push_next(list, proc, statement),
        Stmt::If(_, _, _) => push_next(list, proc, statement),
        Stmt::While(_, _) => push_next(list, proc, statement),
        Stmt::YieldLoop(_, _, _) => push_next(list, proc, statement),
        Stmt::RankLoop(_, _, _, _) => push_next(list, proc, statement),
        Stmt::Yield(_) => push_next(list, proc, statement),
        Stmt::Commit => push_next(list, proc, statement),
        Stmt::Intro(_, _) => push_next(list, proc, statement),
    }
}

/// The goals of these statements of a procedure.
fn push_stmts(
    list: &mut List<Goal>,
    program: &Program,
    others: &[(u32, u32)],
    proc: u32,
    flat: &[&Stmt],
) -> Result<(), Memory>
    requires { length flat.now < 2 ^ 32 }
    ensures { OnOk result (list.new ≡ list.old ++ each_at (stmt_goals program.now others.now proc) 0 (map (λ stmt. stmt.now) flat.now)) }
{
    for (at, stmt) in flat.iter().enumerate() {
        push_stmt(list, program, others, proc, at as u32, stmt)?;
    }
    Ok(())
}

/// The goals of all its statements.
fn push_root(
    alloc: Global,
    list: &mut List<Goal>,
    program: &Program,
    others: &[(u32, u32)],
    number: u32,
    proc: &Proc,
) -> Result<(), Memory>
    requires { sizes_of proc.now.body < 2 ^ 32 }
    ensures { OnOk result (list.new ≡ list.old ++ root_goals program.now others.now number proc.now) }
{
    let flat = statements(alloc, &proc.body)?;
    push_stmts(list, program, others, number, flat.as_slice())
}

/// The same where the procedure is a root.
fn push_proc(
    alloc: Global,
    list: &mut List<Goal>,
    program: &Program,
    others: &[(u32, u32)],
    number: u32,
    proc: &Proc,
) -> Result<(), Memory>
    requires { sizes_of proc.now.body < 2 ^ 32 }
    ensures { OnOk result (list.new ≡ list.old ++ proc_goals program.now others.now number proc.now) }
{
    if is_root(proc) {
        push_root(alloc, list, program, others, number, proc)?;
    }
    Ok(())
}

/// The goals of the statements of all roots.
fn push_procs(
    alloc: Global,
    list: &mut List<Goal>,
    program: &Program,
    outline: &Outline,
) -> Result<(), Memory>
    requires { IsNumbered program.now }
    ensures { OnOk result (list.new ≡ list.old ++ statement_goals program.now outline.now) }
{
    let others = noted(alloc, program, outline)?;
    let procs = program.procs.as_slice();
    for (at, proc) in procs.iter().enumerate() {
        push_proc(alloc, list, program, &others, at as u32, proc)?;
    }
    Ok(())
}

// ---- all

fn push_all(
    alloc: Global,
    list: &mut List<Goal>,
    program: &Program,
    outline: &Outline,
) -> Result<(), Memory>
    requires { IsNumbered program.now }
    ensures { OnOk result (list.new ≡ list.old ++ goals program.now outline.now) }
{
    list.push(Goal::Invariant)?;
    push_threads(list, program)?;
    push_linears(list, program)?;
    push_procs(alloc, list, program, outline)?;
    Ok(())
}

/// The goals of an outline in their order: that initial stores meet the invariant; that the procedures of declared threads
/// may begin; that the actions of the top layer alone keep permissions; and for each statement of each root that it doesn't
/// fail, keeps the invariant, begins threads well, leads to the next note and, where it is a call, keeps all other notes.
///
/// # Errors
///
/// For want of memory.
pub fn goals(alloc: Global, src: &Layered, outline: &Outline) -> Result<List<Goal>, Memory>
    ensures { IfOk result (λ found. found ≡ goals src.now outline.now) }
{
    let mut found = List::new(alloc);
    push_all(alloc, &mut found, program(src), outline)?;
    Ok(found)
}
